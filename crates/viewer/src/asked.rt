// What a question in C names: the book that it is about, and numbers, narrowed for the functions that answer it. C would cut them without a word, so
// that account 257 were account 1: the exports take 32 bits, and a number that is out of every book stays out of every book.
ghost use Rattle.std.specs.Prelude.{◌≡◌, min, if◌then◌else◌};
ghost use Rattle.words.specs.Tests.{◌<?◌};
ghost use Rattle.book.specs.Structs.{book_of, book_seen};

use book::{Book, BookView};

// A book beside its lent tables.
pub(crate) fn seen<'a>(b: Book, held: &'a [u32], side1: &'a [i32], side2: &'a [i32]) -> BookView<'a>
    ensures book { result.book ≡ b }
    ensures seen { book_seen result ≡ book_of b held.now side1.now side2.now }
{
    BookView {
        book: b,
        held,
        side1,
        side2,
    }
}

// No book knows it: authorisations are numbered from 0 to 63.
const NO_ORIGINATOR: u8 = 255;

// An account, a period or a side: 255 is none of any book.
pub(crate) fn at_most_255(number: u32) -> u8
    ensures { result ≡ min number 255 }
{
    u8::try_from(number).unwrap_or(u8::MAX)
}

// A day, whose numbers end at 65,534; or a reference, whose last is 65,535: there `originator_named` keeps what is above it apart.
pub(crate) fn at_most_65535(number: u32) -> u16
    ensures { result ≡ min number 65535 }
{
    u16::try_from(number).unwrap_or(u16::MAX)
}

// The originator of an identifier; none where the reference is none, so that the identifier is of no book.
pub(crate) fn originator_named(originator: u32, reference: u32) -> u8
    ensures { result ≡ (if reference <? 65536 then min originator 255 else 255) }
{
    if 65535 < reference {
        return NO_ORIGINATOR;
    }
    at_most_255(originator)
}
