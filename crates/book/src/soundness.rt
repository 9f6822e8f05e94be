// "A sound book" (1), the test that every call and every question makes first.
ghost use Rattle.std.specs.Prelude.{◌≡◌};
ghost use Rattle.meaning.specs.Soundness.{sound};
ghost use Rattle.book.specs.Structs.{book_of, book_seen};

use crate::{Book, BookView, opening, state};

// "setup rules hold; gates closed do not exceed the periods; held identifiers differ and name known originators; each volume is in range or the
// mark; unheld slots and places past a day's length hold the mark". The book and its tables are asked apart: of a view the book would be copied for it.
pub fn is_sound(b: Book, held: &[u32], side1: &[i32], side2: &[i32]) -> bool
    ensures { result ≡ sound (book_of b held.now side1.now side2.now) }
{
    let s = b.setup;
    if opening::opening_refusal(s, held.len(), side1.len(), side2.len()).is_err() {
        return false;
    }
    let c = state::clock_of(b);
    let gates = clock::gates_before(c, s.days);
    (b.closed <= gates)
        & ledger_soundness::held_right(held, s.authorisations as usize)
        & ledger_soundness::side_right(side1, held, c)
        & ledger_soundness::side_right(side2, held, c)
}

impl BookView<'_> {
    // The same, of a view.
    pub fn is_sound(self) -> bool
        ensures { result ≡ sound (book_seen self.entry) }
    {
        is_sound(self.book, self.held, self.side1, self.side2)
    }
}
