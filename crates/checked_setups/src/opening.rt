// A book from a setup by value, checked: 17, 18, 27, 28. The tables that a call changes are lent apart (crate book, `BookView`).
ghost use Rattle.std.specs.Prelude.{◌≡◌, length};
ghost use Rattle.words.specs.Rules.{answer};
ghost use Rattle.limits.specs.Refusals.{answer_of};
ghost use Rattle.setups.specs.Structs.{setup_of};
ghost use Rattle.book.specs.Answers.{opened, opened_seen, held_opened, side_opened};
ghost use Rattle.checked_setups.specs.Checked.{checked_opening_rules};

use crate::codes;
use book::Book;
use limits::refusals::Refusal;
use setups::Setup;

// Whether this setup, checked, with so many slots and two lent tables of these lengths is refused, and why.
pub fn checked_opening_refusal(
    s: Setup,
    slots: usize,
    lent1: usize,
    lent2: usize,
) -> Result<(), Refusal>
    ensures { answer_of result ≡ answer (checked_opening_rules (setup_of s) slots lent1 lent2) }
{
    book::opening::opening_refusal(s, slots, lent1, lent2)?;
    codes::calendar_refusal(s)
}

// The opened book, its lent tables emptied. A refusal leaves the three tables as they came; where nothing refuses the setup it is opened as any
// other.
pub fn open_checked(
    s: Setup,
    held: &mut [u32],
    side1: &mut [i32],
    side2: &mut [i32],
) -> Result<Book, Refusal>
    ensures { let a = answer (checked_opening_rules (setup_of s) (length held.old) (length side1.old) (length side2.old)) in
        (opened_seen result ≡ opened s a) × (held.new ≡ held_opened a held.old) × (side1.new ≡ side_opened a side1.old) × (side2.new ≡ side_opened a side2.old) }
{
    checked_opening_refusal(s, held.len(), side1.len(), side2.len())?;
    book::opening::open(s, held, side1, side2)
}
