// A packed setup, checked: 19, 17, 19, 17, 18, 27, 28, 22. The tables that a call changes are lent apart (crate book, `BookView`).
ghost use Rattle.std.specs.Prelude.{◌≡◌, length};
ghost use Rattle.words.specs.Rules.{answer};
ghost use Rattle.limits.specs.Refusals.{answer_of};
ghost use Rattle.setup_reading.specs.Structs.{setup_read, as_setup_read};
ghost use Rattle.book.specs.Answers.{opened_packed, opened_packed_seen, held_opened, side_opened};
ghost use Rattle.checked_setups.specs.Checked.{checked_reading_rules, read_checked_setup};

use crate::codes;
use book::Book;
use fields::AtFront;
use limits::refusals::Refusal;
use setups::Setup;

// Whether these bytes, checked, for so many slots and two lent tables of these lengths are refused, and why.
pub fn checked_reading_refusal(
    bytes: &[u8],
    slots: usize,
    lent1: usize,
    lent2: usize,
) -> Result<(), Refusal>
    ensures { answer_of result ≡ answer (checked_reading_rules bytes.now slots lent1 lent2) }
{
    let content = setup_reading::content_in(bytes, slots, lent1, lent2);
    content.outcome?;
    let s = content.setup;
    codes::calendar_refusal(s)?;
    if setup_reading::padding_set(bytes, s.days, s.authorisations) {
        return Err(Refusal::PaddingBit);
    }
    Ok(())
}

// The setup at the front of the bytes. Where nothing refuses it, it is read as any other.
pub fn read_setup_checked(
    bytes: &[u8],
    slots: usize,
    lent1: usize,
    lent2: usize,
) -> Result<AtFront<Setup>, Refusal>
    ensures { as_setup_read result ≡ setup_read (read_checked_setup bytes.now slots lent1 lent2) }
{
    checked_reading_refusal(bytes, slots, lent1, lent2)?;
    setup_reading::read_setup(bytes, slots, lent1, lent2)
}

// A book from a packed setup. A refusal leaves the three tables as they came; where nothing refuses the setup it is opened as any other.
pub fn open_packed_checked(
    bytes: &[u8],
    held: &mut [u32],
    side1: &mut [i32],
    side2: &mut [i32],
) -> Result<AtFront<Book>, Refusal>
    ensures { let read = read_checked_setup bytes.now (length held.old) (length side1.old) (length side2.old) in
        (opened_packed_seen result ≡ opened_packed read) × (held.new ≡ held_opened read.answer held.old) × (side1.new ≡ side_opened read.answer side1.old) × (side2.new ≡ side_opened read.answer side2.old) }
{
    checked_reading_refusal(bytes, held.len(), side1.len(), side2.len())?;
    book::opening::open_packed(bytes, held, side1, side2)
}
