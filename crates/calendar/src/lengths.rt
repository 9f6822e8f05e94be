// The length of a day: 46 on the last Sunday of March, 50 on the last Sunday of October, else 48 (Calendar.antt).
ghost use Rattle.std.specs.Prelude.{◌≡◌, ◌≤◌};
ghost use Rattle.calendar.specs.Calendar.{length_of, code_for, code_of};
ghost use Rattle.calendar.specs.Answers.{measured, coded};
ghost use Rattle.calendar.specs.Outcomes.{as_measured, as_coded};

use crate::dates;
use limits::refusals::Refusal;

// "day 0 is a Saturday"
const FIRST_SUNDAY: u16 = 1;

const DAYS_A_WEEK: u16 = 7;

// "a table of the 200 clock-change days from 2000 to 2099": the last Sundays of March and of October by turns. Its rule is proved of the whole table
// (proofs/Table.antt).
const CHANGE_DAYS: [u16; 200] = [
    85, 302, 449, 666, 820, 1030, 1184, 1394, 1548, 1765, 1912, 2129, 2276, 2493, 2640, 2857, 3011,
    3221, 3375, 3585, 3739, 3956, 4103, 4320, 4467, 4684, 4838, 5048, 5202, 5412, 5566, 5776, 5930,
    6147, 6294, 6511, 6658, 6875, 7029, 7239, 7393, 7603, 7757, 7974, 8121, 8338, 8485, 8702, 8856,
    9066, 9220, 9430, 9584, 9794, 9948, 10165, 10312, 10529, 10676, 10893, 11047, 11257, 11411,
    11621, 11775, 11992, 12139, 12356, 12503, 12720, 12867, 13084, 13238, 13448, 13602, 13812,
    13966, 14183, 14330, 14547, 14694, 14911, 15065, 15275, 15429, 15639, 15793, 16003, 16157,
    16374, 16521, 16738, 16885, 17102, 17256, 17466, 17620, 17830, 17984, 18201, 18348, 18565,
    18712, 18929, 19083, 19293, 19447, 19657, 19811, 20021, 20175, 20392, 20539, 20756, 20903,
    21120, 21274, 21484, 21638, 21848, 22002, 22219, 22366, 22583, 22730, 22947, 23094, 23311,
    23465, 23675, 23829, 24039, 24193, 24410, 24557, 24774, 24921, 25138, 25292, 25502, 25656,
    25866, 26020, 26230, 26384, 26601, 26748, 26965, 27112, 27329, 27483, 27693, 27847, 28057,
    28211, 28428, 28575, 28792, 28939, 29156, 29310, 29520, 29674, 29884, 30038, 30248, 30402,
    30619, 30766, 30983, 31130, 31347, 31501, 31711, 31865, 32075, 32229, 32446, 32593, 32810,
    32957, 33174, 33321, 33538, 33692, 33902, 34056, 34266, 34420, 34637, 34784, 35001, 35148,
    35365, 35519, 35729, 35883, 36093, 36247, 36457,
];

// The periods of a day of the calendar. Only a Sunday can be a clock-change day; that is asked first, so that six days of seven do without the table,
// which the compiler lays out at each call. A Sunday's year has two entries, and they decide, so nothing is searched.
fn periods_on(day: u16) -> u8
    requires { day ≤ 36524 }
    ensures { result ≡ length_of day }
{
    if day % DAYS_A_WEEK != FIRST_SUNDAY {
        return limits::PLAIN_DAY;
    }
    let place = 2 * ((dates::year_of(day) - crate::FIRST_YEAR) as usize);
    let changes = CHANGE_DAYS;
    if changes[place] == day {
        return limits::SHORT_DAY;
    }
    if changes[place + 1] == day {
        return limits::LONG_DAY;
    }
    limits::PLAIN_DAY
}

// The periods of a day; 27 for a day that is not in 2000 to 2099.
pub fn day_length(day: u32) -> Result<u8, Refusal>
    ensures { as_measured result ≡ measured day }
{
    if crate::LAST_DAY < day {
        return Err(Refusal::NotInCalendar);
    }
    Ok(periods_on(day as u16))
}

// "0, 1, 2 for 46, 48, 50" (document 01). A code is a number, as C has it in a setup.
fn code_for(periods: u8) -> u8
    ensures { result ≡ code_for periods }
{
    match periods {
        limits::SHORT_DAY => 0,
        limits::PLAIN_DAY => 1,
        _ => 2,
    }
}

// The code that a setup has for a day of the calendar.
pub(crate) fn code_on(day: u16) -> u8
    requires { day ≤ 36524 }
    ensures { result ≡ code_of day }
{
    code_for(periods_on(day))
}

// The code that a setup has for a day; 27 for a day that is not in 2000 to 2099.
pub fn code_of_day(day: u32) -> Result<u8, Refusal>
    ensures { as_coded result ≡ coded day }
{
    Ok(code_for(day_length(day)?))
}
