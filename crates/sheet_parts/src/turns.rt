// A turn of the program: the messages at hand, done to the book, and their lines. The tables that a call changes are lent apart (crate book,
// `BookView`).
ghost use Rattle.std.specs.Prelude.{◌≡◌};
ghost use Rattle.sheet_turns.specs.Turns.{last_in, waits_for, count_told};
ghost use Rattle.sheet_parts.specs.Promises.{Turns};

use crate::Turned;
use book::Book;
use calls::Run;
use limits::refusals::Refusal;

// The last of so many answers; 0 where there is none.
fn last_of(answers: &[u8], count: usize) -> u8
    ensures { result ≡ last_in answers.now count }
{
    if count == 0 {
        return 0;
    }
    answers.get(count - 1).copied().unwrap_or(0)
}

// Whether the last message is kept for the next turn: its bytes end too soon, and more may come.
fn is_kept(ended: bool, size: usize, used: usize, last: u8) -> bool
    ensures { result ≡ waits_for ended size used last }
{
    !ended & (used < size) & (last == Refusal::BytesEndTooSoon.into())
}

// How many of so many answers are told.
fn count_told(waiting: bool, count: usize) -> usize
    ensures { result ≡ count_told waiting count }
{
    if waiting {
        count.saturating_sub(1)
    } else {
        count
    }
}

// Does the messages at hand to the book, and writes a line for each that is told: its answer, and the place where that carries one.
pub fn turn(
    b: Book,
    seen: u64,
    bytes: &[u8],
    ended: bool,
    held: &mut [u32],
    side1: &mut [i32],
    side2: &mut [i32],
    answers: &mut [u8],
    places: &mut [u8],
    out: &mut [u8],
) -> Turned
    ensures { Turns b seen bytes.now ended held.old side1.old side2.old answers.old places.old out.old result held.new side1.new side2.new answers.new places.new out.new }
{
    let size = bytes.len();
    // Of a book that is refused no message was done.
    let none = Run {
        done: 0,
        used: 0,
        book: b,
    };
    let outcome = calls::packed::apply_all(b, bytes, held, side1, side2, answers, places);
    let ran = outcome.unwrap_or(none);
    let last = last_of(answers, ran.done);
    let waiting = is_kept(ended, size, ran.used, last);
    let told = count_told(waiting, ran.done);
    let first = seen.wrapping_add(1);
    let written = sheet_lines::put_message_lines(out, 0, first, &answers[..told], &places[..told]);
    Turned {
        going: !ended & ((size <= ran.used) | waiting),
        seen: seen.wrapping_add(told as u64),
        used: ran.used,
        written,
        book: ran.book,
    }
}
