// "Opening closes no gate, holds no identifier and sets every place to the mark." The setup rules are 17 and 18. The tables that a call changes are
// lent apart (crate book, `BookView`).
ghost use Rattle.std.specs.Prelude.{◌≡◌, length, replicate};
ghost use Rattle.words.specs.Rules.{answer};
ghost use Rattle.limits.specs.Refusals.{answer_of};
ghost use Rattle.meaning.specs.Ledgers.{the_mark};
ghost use Rattle.meaning.specs.Books.{opening_rules};
ghost use Rattle.meaning.specs.PackedSetups.{read_setup};
ghost use Rattle.setups.specs.Structs.{setup_of};
ghost use Rattle.book.specs.Answers.{no_book, opened, opened_seen, opened_packed, opened_packed_seen, held_opened, side_opened};

use crate::{Book, Opened, OpenedPacked};
use fields::AtFront;
use limits::refusals::Refusal;

// Whether this setup with so many slots and two lent tables of these lengths is refused, and why. The three numbers stay apart, here and where setups are
// read, as C gives them.
#[tactic(auto, unfolding(words::specs::Rules::answer, meaning::specs::Books::opening_rules))]
pub fn opening_refusal(
    s: setups::Setup,
    slots: usize,
    lent1: usize,
    lent2: usize,
) -> Result<(), Refusal>
    ensures { answer_of result ≡ answer (opening_rules (setup_of s) slots lent1 lent2) }
{
    if setups::rules::counts_wrong(s)
        | setups::rules::last_day_wrong(s)
        | setups::rules::lent_wrong(s, slots, lent1, lent2)
        | setups::rules::code_wrong(s)
    {
        return Err(Refusal::SetupWrong);
    }
    if setups::rules::some_row_wrong(s) {
        return Err(Refusal::RowWrong);
    }
    Ok(())
}

// A book whose every field is zero: what a refusal gives.
pub fn no_book() -> Book
    ensures { result ≡ no_book }
{
    Book {
        setup: setups::Setup::NONE,
        closed: 0,
    }
}

impl From<Result<Book, Refusal>> for Opened {
    ghost from_gives = { λ outcome given. given ≡ opened_seen outcome };

    fn from(outcome: Result<Book, Refusal>) -> Opened {
        match outcome {
            Ok(book) => Opened { answer: 0, book },
            Err(refusal) => Opened {
                answer: refusal.into(),
                book: no_book(),
            },
        }
    }
}

// The opened book, its lent tables emptied. A refusal leaves the three tables as they came.
pub fn open(
    s: setups::Setup,
    held: &mut [u32],
    side1: &mut [i32],
    side2: &mut [i32],
) -> Result<Book, Refusal>
    ensures { let a = answer (opening_rules (setup_of s) (length held.old) (length side1.old) (length side2.old)) in
        (opened_seen result ≡ opened s a) × (held.new ≡ held_opened a held.old) × (side1.new ≡ side_opened a side1.old) × (side2.new ≡ side_opened a side2.old) }
{
    opening_refusal(s, held.len(), side1.len(), side2.len())?;
    held.fill(0);
    side1.fill(ledger::MARK);
    side2.fill(ledger::MARK);
    Ok(Book {
        setup: s,
        closed: 0,
    })
}

impl From<Result<AtFront<Book>, Refusal>> for OpenedPacked {
    ghost from_gives = { λ outcome given. given ≡ opened_packed_seen outcome };

    fn from(outcome: Result<AtFront<Book>, Refusal>) -> OpenedPacked {
        match outcome {
            Ok(front) => OpenedPacked {
                answer: 0,
                length: front.length,
                book: front.value,
            },
            Err(refusal) => OpenedPacked {
                answer: refusal.into(),
                length: 0,
                book: no_book(),
            },
        }
    }
}

// A book from a packed setup. What was read is always opened.
pub fn open_packed(
    bytes: &[u8],
    held: &mut [u32],
    side1: &mut [i32],
    side2: &mut [i32],
) -> Result<AtFront<Book>, Refusal>
    ensures { let read = read_setup bytes.now (length held.old) (length side1.old) (length side2.old) in
        (opened_packed_seen result ≡ opened_packed read) × (held.new ≡ held_opened read.answer held.old) × (side1.new ≡ side_opened read.answer side1.old) × (side2.new ≡ side_opened read.answer side2.old) }
{
    let read = setup_reading::read_setup(bytes, held.len(), side1.len(), side2.len())?;
    let book = open(read.value, held, side1, side2)?;
    Ok(AtFront {
        length: read.length,
        value: book,
    })
}
