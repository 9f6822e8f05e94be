// Day number from date, and back (Calendar.antt).
ghost use Rattle.std.specs.Prelude.{◌≡◌, ◌≤◌, ◌<◌};
ghost use Rattle.calendar.specs.Calendar.{is_leap, month_length, before_month, year_length, month_of, before_year, year_of, is_date};
ghost use Rattle.calendar.specs.Answers.{date_of, numbered, dated};
ghost use Rattle.calendar.specs.Outcomes.{as_numbered, as_dated};

use crate::Date;
use limits::refusals::Refusal;

const LAST_YEAR: u32 = 2099;

// Four years together, the first of them a leap year.
const FOUR_YEARS: u32 = 1461;

// Of a year that is no leap year: the days of each month, and the days before it.
const MONTHS: [u32; 12] = [31, 28, 31, 30, 31, 30, 31, 31, 30, 31, 30, 31];

const BEFORE: [u32; 12] = [0, 31, 59, 90, 120, 151, 181, 212, 243, 273, 304, 334];

fn is_leap(year: u32) -> bool
    ensures { result ≡ is_leap year }
{
    (year % 4 == 0) & ((year % 100 != 0) | (year % 400 == 0))
}

fn month_length(leap: bool, month: u32) -> u32
    requires { (1 ≤ month) × (month ≤ 12) }
    ensures { result ≡ month_length leap month }
{
    if leap & (month == 2) {
        return 29;
    }
    MONTHS[(month - 1) as usize]
}

// The days of the year before a month.
fn before_month(leap: bool, month: u32) -> u32
    requires { (1 ≤ month) × (month ≤ 12) }
    ensures { result ≡ before_month leap month }
{
    let days = BEFORE[(month - 1) as usize];
    if leap & (2 < month) {
        return days + 1;
    }
    days
}

// The days from 2000 on before a year.
fn before_year(year: u32) -> u32
    requires { (2000 ≤ year) × (year ≤ 2099) }
    ensures { result ≡ before_year year }
{
    (FOUR_YEARS * (year - crate::FIRST_YEAR) + 3) / 4
}

pub(crate) fn year_of(day: u16) -> u32
    ensures { result ≡ year_of day }
{
    crate::FIRST_YEAR + 4 * day as u32 / FOUR_YEARS
}

// The month of a day of the year, which counts from 0. It is the one guessed or the next: tested over every day of both sorts of year
// (proofs/MonthTables.antt).
fn month_of(leap: bool, day: u32) -> u32
    requires { day < year_length leap }
    ensures { result ≡ month_of leap day }
{
    let guess = day / 32 + 1;
    if guess < 12 && before_month(leap, guess + 1) <= day {
        return guess + 1;
    }
    guess
}

fn is_date(year: u32, month: u32, day: u32) -> bool
    ensures { result ≡ is_date (date_of year month day) }
{
    let month_exists = (crate::FIRST_YEAR..=LAST_YEAR).contains(&year) & (1..=12).contains(&month);
    month_exists && (1..=month_length(is_leap(year), month)).contains(&day)
}

// The number of a date's day. A date that is not in 2000 to 2099, as 30 February of any year, is refused by 27.
pub fn day_of_date(year: u32, month: u32, day: u32) -> Result<u16, Refusal>
    ensures { as_numbered result ≡ numbered (date_of year month day) }
{
    if !is_date(year, month, day) {
        return Err(Refusal::NotInCalendar);
    }
    let years = before_year(year);
    let months = before_month(is_leap(year), month);
    Ok((years + (months + (day - 1))) as u16)
}

// The date of a day's number; 27 for a day that is not in 2000 to 2099.
pub fn date_of_day(day: u32) -> Result<Date, Refusal>
    ensures { as_dated result ≡ dated day }
{
    if crate::LAST_DAY < day {
        return Err(Refusal::NotInCalendar);
    }
    let year = year_of(day as u16);
    let leap = is_leap(year);
    let rest = day - before_year(year);
    let month = month_of(leap, rest);
    let before = before_month(leap, month);
    Ok(Date {
        year: year as u16,
        month: month as u8,
        day: (rest - before + 1) as u8,
    })
}
