// "The day's row is shown as a part of side 1's or side 2's own table, the day's length long; it is empty exactly on a refusal, whose number is
// asked apart."
ghost use Rattle.std.specs.Prelude.{not, true, ◌≡◌, ◌+◌, ◌≤◌, ◌<◌, length, IfOk};
ghost use Rattle.words.specs.Tests.{◌=?◌};
ghost use Rattle.words.specs.Rules.{answer};
ghost use Rattle.limits.specs.Refusals.{answer_of};
ghost use Rattle.meaning.specs.Time.{periods_at, days, day_of, has_day};
ghost use Rattle.meaning.specs.Ledgers.{index, identifier_of};
ghost use Rattle.meaning.specs.Rows.{row_rules, row};
ghost use Rattle.book.specs.Structs.{time_in, book_of, book_seen};
ghost use Rattle.marks.specs.Rows.{row_placed, row_place, table_of, part_at};

use crate::RowPart;
use book::{Book, BookView, state};
use limits::refusals::Refusal;

// A day of the book, by its number.
#[derive(Clone, Copy)]
pub(crate) struct BookDay {
    pub book: Book,
    pub day: u16,
    ghost of_book: { has_day (time_in book) day ≡ true },
}

impl BookDay {
    // Its place in the book.
    pub(crate) fn place(self) -> u8
        ensures { result ≡ day_of (time_in self.book) self.day }
    {
        (self.day - self.book.setup.first) as u8
    }

    // Its periods.
    pub(crate) fn periods(self) -> u8
        ensures { result ≡ periods_at (time_in self.book).codes (day_of (time_in self.book) self.day) }
    {
        clock::periods_at(state::clock_of(self.book), self.place())
    }

    // The place of a slot's period in a side's table.
    pub(crate) fn index_of(self, slot: usize, period: u8) -> usize
        requires { (slot < 256) × (1 ≤ period) }
        ensures { result ≡ index (days (time_in self.book)) slot (day_of (time_in self.book) self.day) period }
    {
        ledger::place_of(slot as u8, self.book.setup.days, self.place(), period - 1)
    }
}

// Whether a row is refused, and why.
pub fn row_refusal(
    view: BookView<'_>,
    originator: u8,
    reference: u16,
    day: u16,
    side: u8,
) -> Result<(), Refusal>
    ensures { answer_of result ≡ answer (row_rules (book_seen view.entry) (identifier_of originator reference) day side) }
{
    if !view.is_sound() {
        return Err(Refusal::NotSound);
    }
    if view.held.len() <= ledger::slots::slot_of(view.held, originator, reference) {
        return Err(Refusal::NotHeld);
    }
    let has_day = clock::has_day(state::clock_of(view.book), day);
    if !(has_day & (1..=2).contains(&side)) {
        return Err(Refusal::NoSuchDay);
    }
    Ok(())
}

// The day's part of a side's own table, the day's length long; empty where `row_refusal` refuses it. The tables are lent apart, so that the
// row, a part of a side, does not keep `held` lent: a view lends all three for one lifetime.
pub fn row<'a>(
    b: Book,
    held: &[u32],
    side1: &'a [i32],
    side2: &'a [i32],
    originator: u8,
    reference: u16,
    day: u16,
    side: u8,
) -> &'a [i32]
    ensures { result.now ≡ row (book_of b held.now side1.now side2.now) (identifier_of originator reference) day side }
{
    let view = BookView {
        book: b,
        held,
        side1,
        side2,
    };
    let Ok(part) = row_place(view, originator, reference, day, side) else {
        return &side1[0..0];
    };
    let end = part.start + part.length;
    if side == 1 {
        return &side1[part.start..end];
    }
    &side2[part.start..end]
}

// Where that part lies, for a caller that cannot be handed a part of its own table.
pub fn row_place(
    view: BookView<'_>,
    originator: u8,
    reference: u16,
    day: u16,
    side: u8,
) -> Result<RowPart, Refusal>
    ensures placed { let before = book_seen view.entry in
        let i = identifier_of originator reference in
        let place = row_placed result in
        (place ≡ row_place before i day side) × (part_at place (table_of view.entry.side1.now view.entry.side2.now side) ≡ row before i day side) × ((place.length =? 0) ≡ not (place.answer =? 0)) }
    ensures inside { IfOk result (λ part. part.start + part.length ≤ length (table_of view.entry.side1.now view.entry.side2.now side)) }
{
    row_refusal(view, originator, reference, day, side)?;
    let slot = ledger::slots::slot_of(view.held, originator, reference);
    let asked = BookDay {
        book: view.book,
        day,
    };
    let start = asked.index_of(slot, 1);
    let length = asked.periods() as usize;
    Ok(RowPart { start, length })
}
