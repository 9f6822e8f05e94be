// What an account's position is: totals and figures of matched volumes, asked of a book by value beside its lent tables.
#![tactic(auto)]

ghost use Rattle.std.specs.Prelude.{◌≡◌};
ghost use Rattle.position.specs.Totals.{totalled_of, figured_of};

use limits::refusals::Refusal;

mod counting; // counting.rt: what a slot counts, and when a day's question is refused
pub mod totals; // totals.rt: an account's total in a period, and in each period of a day
pub mod day_figures; // day_figures.rt: sold, bought and net MWh of a day

// A total as C is given it. With a refusal the total is 0.
#[repr(C)]
#[derive(Clone, Copy)]
pub struct Totalled {
    pub answer: u8,
    pub kwh: i64,
}

impl From<Result<i64, Refusal>> for Totalled {
    ghost from_gives = { λ outcome given. given ≡ totalled_of outcome };

    fn from(outcome: Result<i64, Refusal>) -> Totalled {
        match outcome {
            Ok(kwh) => Totalled { answer: 0, kwh },
            Err(refusal) => Totalled {
                answer: refusal.into(),
                kwh: 0,
            },
        }
    }
}

// What an account sold and what it bought, in whole kWh.
#[derive(Clone, Copy)]
pub struct Sums {
    pub sold: i64,
    pub bought: i64,
}

// In MWh.
#[repr(C)]
#[derive(Clone, Copy)]
pub struct DayFigures {
    pub sold: f64,
    pub bought: f64,
    pub net: f64,
}

// Figures as C is given them. With a refusal the three are positive zero.
#[repr(C)]
#[derive(Clone, Copy)]
pub struct Figured {
    pub answer: u8,
    pub day: DayFigures,
}

impl From<Result<DayFigures, Refusal>> for Figured {
    ghost from_gives = { λ outcome given. given ≡ figured_of outcome };

    fn from(outcome: Result<DayFigures, Refusal>) -> Figured {
        match outcome {
            Ok(day) => Figured { answer: 0, day },
            Err(refusal) => Figured {
                answer: refusal.into(),
                day: DayFigures {
                    sold: 0.0,
                    bought: 0.0,
                    net: 0.0,
                },
            },
        }
    }
}
