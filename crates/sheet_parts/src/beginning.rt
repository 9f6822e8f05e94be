// The setup at the front of the input, the book that it opens, and the first line. The tables that a call changes are lent apart (crate book,
// `BookView`).
ghost use Rattle.std.specs.Prelude.{◌≡◌, ◌≤◌, length};
ghost use Rattle.sheet_lines.specs.Places.{Puts};
ghost use Rattle.meaning.specs.Sheet.{lent_for};
ghost use Rattle.sheet_turns.specs.Turns.{line_for};
ghost use Rattle.book.specs.Answers.{opened_packed_seen};
ghost use Rattle.sheet_parts.specs.Seen.{begun_seen};
ghost use Rattle.sheet_parts.specs.Promises.{Begins};

use crate::Begun;
use book::Book;
use fields::AtFront;
use limits::refusals::Refusal;

pub const SLOTS: usize = 16;

// "first day 16, days 4": where a packed setup has its days.
const DAYS_AT: u32 = 16;

const DAYS_BITS: u8 = 4;

// How many places of a side the setup at the front of these bytes asks for.
pub fn lent_for(bytes: &[u8]) -> usize
    ensures { (result ≡ lent_for bytes.now) × (result ≤ 12000) }
{
    SLOTS * fields::read_field(bytes, DAYS_AT, DAYS_BITS) as usize * limits::PLACES_A_DAY
}

// The first line: "sheet" where a book is opened, else "setup" and the number.
fn put_first_line(out: &mut [u8], opened: Result<AtFront<Book>, Refusal>) -> usize
    ensures { let o = opened_packed_seen opened in
        Puts (line_for o.answer o.book.setup.first o.book.setup.days o.book.setup.accounts) out.old 0 out.new result }
{
    match opened {
        Ok(front) => {
            let s = front.value.setup;
            sheet_lines::put_sheet_line(out, 0, s.first, s.days, s.accounts)
        }
        Err(refusal) => sheet_lines::put_setup_line(out, 0, refusal.into()),
    }
}

// Opens the book from the packed setup, and writes the first line.
pub fn begin(
    bytes: &[u8],
    held: &mut [u32],
    side1: &mut [i32],
    side2: &mut [i32],
    out: &mut [u8],
) -> Begun
    ensures { Begins bytes.now held.old side1.old side2.old out.old (begun_seen result) held.new side1.new side2.new out.new }
{
    let opened = book::opening::open_packed(bytes, held, side1, side2);
    let written = put_first_line(out, opened);
    Begun { opened, written }
}
