// What a book shows of the positions in it ("Matching, totals, marks"): questions of a book by value and its lent tables, which change nothing. An
// identifier's originator and reference stay two parameters, as C gives them and a notification has them.
#![tactic(auto)]

ghost use Rattle.std.specs.Prelude.{◌≡◌};
ghost use Rattle.marks.specs.Rows.{row_placed};

use limits::refusals::Refusal;

pub mod rows; // rows.rt: a day of the book, and its row of one side
mod asking; // asking.rt: who asks for a mark, and for which period
pub mod periods; // periods.rt: the mark of a period, and the marks of a whole day

// Where the day's row lies in its side's table.
#[derive(Clone, Copy)]
pub struct RowPart {
    pub start: usize,
    pub length: usize,
}

// The same as C is given it. With a refusal both numbers are 0.
#[repr(C)]
#[derive(Clone, Copy)]
pub struct RowPlace {
    pub answer: u8,
    pub start: usize,
    pub length: usize,
}

impl From<Result<RowPart, Refusal>> for RowPlace {
    ghost from_gives = { λ outcome given. given ≡ row_placed outcome };

    fn from(outcome: Result<RowPart, Refusal>) -> RowPlace {
        match outcome {
            Ok(RowPart { start, length }) => RowPlace {
                answer: 0,
                start,
                length,
            },
            Err(refusal) => RowPlace {
                answer: refusal.into(),
                start: 0,
                length: 0,
            },
        }
    }
}
