// A nullification blanks both sides of each identifier between its two accounts (document 01, "What a notification does"; refusals 1, 2, 15, 9).
// The tables that a call changes are lent apart (crate book, `BookView`).
ghost use Rattle.std.specs.Prelude.{◌≡◌};
ghost use Rattle.words.specs.Rules.{answer};
ghost use Rattle.meaning.specs.Messages.{nullification};
ghost use Rattle.meaning.specs.Calls.{message, nullification_rules, refusal};
ghost use Rattle.messages.specs.Structs.{nullification_of};
ghost use Rattle.limits.specs.Refusals.{answer_of};
ghost use Rattle.book.specs.Structs.{book_of, book_seen};
ghost use Rattle.calls.specs.Answers.{after_call};

use crate::sound_book;
use book::{Book, BookView};
use limits::refusals::Refusal;

// What refuses it.
pub fn nullification_refusal(view: BookView<'_>, x: messages::Nullification) -> Result<(), Refusal>
    ensures { answer_of result ≡ answer (nullification_rules (book_seen view.entry) (nullification_of x)) }
{
    if !view.is_sound() {
        return Err(Refusal::NotSound);
    }
    message_checks::nullifications::judge_nullification(view.book, x)
}

// Both tables with the mark at the open places from its first day on, in each slot whose identifier is between the two accounts; a refusal leaves
// them as they came.
pub fn nullify(
    b: Book,
    x: messages::Nullification,
    held: &[u32],
    side1: &mut [i32],
    side2: &mut [i32],
) -> Result<(), Refusal>
    ensures { let before = book_of b held.now side1.old side2.old in
        let call = message (nullification (nullification_of x)) in
        (answer_of result ≡ refusal before call) × (side1.new ≡ (after_call before call).ledger.side1) × (side2.new ≡ (after_call before call).ledger.side2) }
{
    let view = BookView {
        book: b,
        held,
        side1,
        side2,
    };
    if !view.is_sound() {
        return Err(Refusal::NotSound);
    }
    sound_book::do_nullification(b, x, held, side1, side2)
}
