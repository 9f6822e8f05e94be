// The settlement days of a book, their periods and the clock (meaning, Time.antt), by value.
#![tactic(auto)]

ghost use Rattle.std.specs.Prelude.{◌≡◌};
ghost use Rattle.meaning.specs.Time.{periods_of_code, periods_at, is_period_at, gates_before, is_open_at, has_day, every_gate_closed, current_day};
ghost use Rattle.clock.specs.Structs.{time_of};

// The number of the first day, the first `days` codes, and the number of gates closed. There is no heap, so the codes stand in an array of the most days,
// their number beside it.
#[repr(C)]
#[derive(Clone, Copy)]
pub struct Clock {
    pub first: u16,
    pub days: u8,
    pub codes: [u8; limits::MOST_DAYS_WIDE],
    pub closed: u16,
}

// The periods that a code stands for; 0 for what is no code.
pub fn periods_of(code: u8) -> u8
    ensures { result ≡ periods_of_code code }
{
    match code {
        0 => limits::SHORT_DAY,
        1 => limits::PLAIN_DAY,
        2 => limits::LONG_DAY,
        _ => 0,
    }
}

// The periods of the day at place d. Past the book's days the code reads as 0.
pub fn periods_at(c: Clock, d: u8) -> u8
    ensures { result ≡ periods_at (time_of c).codes d }
{
    if c.days.min(limits::MOST_DAYS) <= d {
        return periods_of(0);
    }
    periods_of(c.codes[d as usize])
}

// The gates of all days before the one at place d.
pub fn gates_before(c: Clock, d: u8) -> u16
    ensures { result ≡ gates_before (time_of c).codes d }
{
    let mut gates: u16 = 0;
    for k in 0..d {
        gates += periods_at(c, k) as u16;
    }
    gates
}

// A gate is open while fewer are closed than its place in their order.
pub fn is_open_at(c: Clock, d: u8, period: u8) -> bool
    ensures { result ≡ is_open_at (time_of c).codes c.closed d period }
{
    let gates = gates_before(c, d);
    c.closed < gates + period as u16
}

// A period of the day at place d.
pub fn is_period_at(c: Clock, d: u8, period: u8) -> bool
    ensures { result ≡ is_period_at (time_of c).codes d period }
{
    let periods = periods_at(c, d);
    d < c.days && (1..=periods).contains(&period)
}

pub fn every_gate_closed(c: Clock) -> bool
    ensures { result ≡ every_gate_closed (time_of c) }
{
    let gates = gates_before(c, c.days);
    gates <= c.closed
}

// The earliest day with an open gate, by its number; the day after the book where there is none.
pub fn current_day(c: Clock) -> u32
    ensures { result ≡ current_day (time_of c) }
{
    for d in 0..c.days {
        let gates = gates_before(c, d + 1);
        if c.closed < gates {
            return c.first as u32 + d as u32;
        }
    }
    c.first as u32 + c.days as u32
}

// The day number is one of the book's.
pub fn has_day(c: Clock, day: u16) -> bool
    ensures { result ≡ has_day (time_of c) day }
{
    c.first <= day && day - c.first < c.days as u16
}
