// What the C viewer asks about message bytes (document 01, "Packed messages"): refusal, length and any one field, each asked apart.
// include/ghendufika.h declares these functions and names the fields.
#![tactic(auto)]

mod asked; // asked.rt: the book and the numbers that a question names
pub mod books; // books.rt: a book from C
pub mod packing; // packing.rt: messages, setups and books out of packed bytes, and into them
pub mod bars; // bars.rt: one mark, and where a row lies
pub mod days; // days.rt: the calendar
pub mod checked; // checked.rt: setups checked against the calendar
pub mod volumes; // volumes.rt: spreadsheets

ghost use Rattle.std.specs.Prelude.{◌≡◌};
ghost use Rattle.words.specs.Rules.{answer};
ghost use Rattle.meaning.specs.PackedMessages.{reading_rules, read_message};
ghost use Rattle.message_fields.specs.Questions.{field_in};
ghost use Rattle.marks.specs.Marks.{marked_of};
ghost use Rattle.viewer.specs.Numbers.{mark_numbers};

use bar::Bar;
use limits::refusals::{Refusal, answer_of};

// What C is given of a mark: `bar` is the number of its case, 0 Blank, 1 OneSide, 2 Agreed, 3 Disagreed; a figure that the case does not have is
// positive zero. With a refusal the mark is blank.
#[repr(C)]
#[derive(Clone, Copy)]
pub struct MarkNumbers {
    pub answer: u8,
    pub bar: u8,
    pub first: f64,
    pub second: f64,
}

impl From<Result<Bar, Refusal>> for MarkNumbers {
    ghost from_gives = { λ outcome numbers. numbers ≡ mark_numbers (marked_of outcome) };

    fn from(outcome: Result<Bar, Refusal>) -> MarkNumbers {
        match outcome {
            Ok(bar) => MarkNumbers {
                answer: 0,
                bar: bar::case_of(bar),
                first: bar::first_of(bar),
                second: bar::second_of(bar),
            },
            Err(refusal) => MarkNumbers {
                answer: refusal.into(),
                bar: 0,
                first: 0.0,
                second: 0.0,
            },
        }
    }
}

// The number that refuses these bytes as a message, or 0.
#[unsafe(no_mangle)]
pub extern "C" fn ghendufika_message_refusal(bytes: &[u8]) -> u8
    ensures { result ≡ answer (reading_rules bytes.now) }
{
    answer_of(message_reading::reading_refusal(bytes))
}

// The bytes that the message takes, 0 with a refusal.
#[unsafe(no_mangle)]
pub extern "C" fn ghendufika_message_length(bytes: &[u8]) -> usize
    ensures { result ≡ (read_message bytes.now).length }
{
    message_reading::message_length(bytes)
}

// One field of the message, 0 with a refusal.
#[unsafe(no_mangle)]
pub extern "C" fn ghendufika_message_field(bytes: &[u8], field: u32) -> i64
    ensures { result ≡ field_in (read_message bytes.now).read field }
{
    message_fields::field_in(bytes, field)
}
