// The clock and the authorisations of a book.
ghost use Rattle.std.specs.Prelude.{◌≡◌};
ghost use Rattle.meaning.specs.Authorisations.{row_at};
ghost use Rattle.setups.specs.Structs.{row_of};
ghost use Rattle.book.specs.Structs.{clock_in, rows_in, origin_place, origin_row};

use crate::Book;

const MOST_ROWS: u32 = limits::MOST_AUTHORISATIONS as u32;

const LAST_ROW: usize = limits::MOST_AUTHORISATIONS_WIDE - 1;

// The days and the gates closed, for the questions of `clock`.
pub fn clock_of(b: Book) -> clock::Clock
    ensures { result ≡ clock_in b }
{
    let s = b.setup;
    // An array straight from a field into a literal gets no generated proof.
    let codes = s.codes;
    clock::Clock {
        first: s.first,
        days: s.days,
        codes,
        closed: b.closed,
    }
}

// The authorisation of a number; all zero where the book has none.
pub fn row_of(b: Book, k: u32) -> setups::Authorisation
    ensures { row_of result ≡ row_at (rows_in b.setup) k }
{
    let s = b.setup;
    if s.authorisations as u32 <= k {
        return setups::Authorisation::NONE;
    }
    s.rows
        .get(k as usize)
        .copied()
        .unwrap_or(setups::Authorisation::NONE)
}

// Where the array of authorisations would have the originating one of the identifier that an entry of `held` holds; a place of the array in any
// case. Reading the array by such a place copies one row, where `row_of` copies all of them.
#[tactic(auto, unfolding(crate::specs::Structs::origin_place))]
pub fn origin_place(entry: u32) -> usize
    ensures { result ≡ origin_place entry }
{
    (ledger::slots::originator_of(entry) as usize).min(LAST_ROW)
}

// The originating authorisation of the identifier that an entry holds, where the array has `row` at that place; all zero where the entry holds none,
// or a book of so many authorisations has none of that number.
#[tactic(auto, unfolding(crate::specs::Structs::origin_row))]
pub fn origin_row(
    authorisations: u8,
    entry: u32,
    row: setups::Authorisation,
) -> setups::Authorisation
    ensures { result ≡ origin_row authorisations entry row }
{
    if entry == 0 {
        return setups::Authorisation::NONE;
    }
    let k = ledger::slots::originator_of(entry);
    if (k < authorisations as u32) & (k < MOST_ROWS) {
        return row;
    }
    setups::Authorisation::NONE
}
