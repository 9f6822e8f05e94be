// What is shown of an identifier, as numbers: the mark of one period, and where the row behind a day's bars lies in the caller's own table.
ghost use Rattle.std.specs.Prelude.{not, ◌≡◌};
ghost use Rattle.words.specs.Tests.{◌=?◌};
ghost use Rattle.meaning.specs.Rows.{row};
ghost use Rattle.book.specs.Structs.{book_of};
ghost use Rattle.marks.specs.Marks.{marked};
ghost use Rattle.marks.specs.Rows.{row_place, table_of, part_at};
ghost use Rattle.viewer.specs.Asked.{named};
ghost use Rattle.viewer.specs.Numbers.{mark_numbers};

use crate::{MarkNumbers, asked};
use book::Book;

#[unsafe(no_mangle)]
pub extern "C" fn ghendufika_mark(
    b: Book,
    held: &[u32],
    side1: &[i32],
    side2: &[i32],
    originator: u32,
    reference: u32,
    account: u32,
    day: u32,
    period: u32,
) -> MarkNumbers
    ensures { result ≡ mark_numbers (marked (book_of b held.now side1.now side2.now) (named originator reference) account day period) }
{
    let originator = asked::originator_named(originator, reference);
    let reference = asked::at_most_65535(reference);
    let account = asked::at_most_255(account);
    let day = asked::at_most_65535(day);
    let period = asked::at_most_255(period);
    let view = asked::seen(b, held, side1, side2);
    marks::periods::mark(view, originator, reference, account, day, period).into()
}

#[unsafe(no_mangle)]
pub extern "C" fn ghendufika_row(
    b: Book,
    held: &[u32],
    side1: &[i32],
    side2: &[i32],
    originator: u32,
    reference: u32,
    day: u32,
    side: u32,
) -> marks::RowPlace
    ensures { let before = book_of b held.now side1.now side2.now in
        let i = named originator reference in
        (result ≡ row_place before i day side) × (part_at result (table_of side1.now side2.now side) ≡ row before i day side) × ((result.length =? 0) ≡ not (result.answer =? 0)) }
{
    let originator = asked::originator_named(originator, reference);
    let reference = asked::at_most_65535(reference);
    let day = asked::at_most_65535(day);
    let side = asked::at_most_255(side);
    let view = asked::seen(b, held, side1, side2);
    marks::rows::row_place(view, originator, reference, day, side).into()
}
