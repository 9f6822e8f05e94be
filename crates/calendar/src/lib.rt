// Document 02, A2: the settlement calendar, 1 January 2000 (day 0) to 31 December 2099 (day 36,524). Day numbers and dates are asked as 32 bits.
#![tactic(auto)]

ghost use Rattle.std.specs.Prelude.{◌≡◌};
ghost use Rattle.calendar.specs.Outcomes.{as_measured, as_coded, as_numbered, as_dated, as_proposed};

use limits::refusals::Refusal;

pub mod dates; // dates.rt: day number from date, and back
pub mod lengths; // lengths.rt: the table of clock-change days, and the length and code of a day
pub mod proposals; // proposals.rt: the codes of days that follow each other

pub const FIRST_YEAR: u32 = 2000;

// 31 December 2099
pub const LAST_DAY: u32 = 36524;

// Months count from 1, days of a month too.
#[repr(C)]
#[derive(Clone, Copy, Default)]
pub struct Date {
    pub year: u16,
    pub month: u8,
    pub day: u8,
}

// What C is given, here and below: 0 beside what was asked for, or the refusal's number beside zeros.
#[repr(C)]
#[derive(Clone, Copy)]
pub struct Measured {
    pub answer: u8,
    pub periods: u8,
}

impl From<Result<u8, Refusal>> for Measured {
    ghost from_gives = { λ outcome measured. measured ≡ as_measured outcome };

    fn from(outcome: Result<u8, Refusal>) -> Measured {
        match outcome {
            Ok(periods) => Measured { answer: 0, periods },
            Err(refusal) => Measured {
                answer: refusal.into(),
                periods: 0,
            },
        }
    }
}

#[repr(C)]
#[derive(Clone, Copy)]
pub struct Coded {
    pub answer: u8,
    pub code: u8,
}

impl From<Result<u8, Refusal>> for Coded {
    ghost from_gives = { λ outcome coded. coded ≡ as_coded outcome };

    fn from(outcome: Result<u8, Refusal>) -> Coded {
        match outcome {
            Ok(code) => Coded { answer: 0, code },
            Err(refusal) => Coded {
                answer: refusal.into(),
                code: 0,
            },
        }
    }
}

#[repr(C)]
#[derive(Clone, Copy)]
pub struct Numbered {
    pub answer: u8,
    pub day: u16,
}

impl From<Result<u16, Refusal>> for Numbered {
    ghost from_gives = { λ outcome numbered. numbered ≡ as_numbered outcome };

    fn from(outcome: Result<u16, Refusal>) -> Numbered {
        match outcome {
            Ok(day) => Numbered { answer: 0, day },
            Err(refusal) => Numbered {
                answer: refusal.into(),
                day: 0,
            },
        }
    }
}

#[repr(C)]
#[derive(Clone, Copy)]
pub struct Dated {
    pub answer: u8,
    pub date: Date,
}

impl From<Result<Date, Refusal>> for Dated {
    ghost from_gives = { λ outcome dated. dated ≡ as_dated outcome };

    fn from(outcome: Result<Date, Refusal>) -> Dated {
        match outcome {
            Ok(date) => Dated { answer: 0, date },
            Err(refusal) => Dated {
                answer: refusal.into(),
                date: Date::default(),
            },
        }
    }
}

// The codes of the days asked for; the places past them are zero.
#[repr(C)]
#[derive(Clone, Copy)]
pub struct Proposed {
    pub answer: u8,
    pub codes: [u8; limits::MOST_DAYS_WIDE],
}

impl From<Result<[u8; limits::MOST_DAYS_WIDE], Refusal>> for Proposed {
    ghost from_gives = { λ outcome proposed. proposed ≡ as_proposed outcome };

    fn from(outcome: Result<[u8; limits::MOST_DAYS_WIDE], Refusal>) -> Proposed {
        match outcome {
            Ok(codes) => Proposed { answer: 0, codes },
            Err(refusal) => Proposed {
                answer: refusal.into(),
                codes: [0; limits::MOST_DAYS_WIDE],
            },
        }
    }
}
