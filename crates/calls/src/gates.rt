// "One call closes the next gate."
ghost use Rattle.std.specs.Prelude.{◌≡◌};
ghost use Rattle.words.specs.Rules.{answer};
ghost use Rattle.meaning.specs.Calls.{gate_rules};
ghost use Rattle.book.specs.Structs.{book_seen};
ghost use Rattle.calls.specs.Answers.{next_answer, gated, gated_seen};

use book::{Book, BookView, state};
use limits::refusals::Refusal;

// The next gate of a book known to be sound.
pub(crate) fn close_next(b: Book) -> Result<Book, Refusal>
    ensures { gated_seen b result ≡ gated b (next_answer b) }
{
    let c = state::clock_of(b);
    if clock::every_gate_closed(c) {
        return Err(Refusal::EveryGateClosed);
    }
    Ok(Book {
        closed: b.closed + 1,
        ..b
    })
}

// The book with one gate more closed. C is given the book as it came with a refusal.
pub fn close_gate(view: BookView<'_>) -> Result<Book, Refusal>
    ensures { gated_seen view.entry.book result ≡ gated view.entry.book (answer (gate_rules (book_seen view.entry))) }
{
    if !view.is_sound() {
        return Err(Refusal::NotSound);
    }
    close_next(view.book)
}
