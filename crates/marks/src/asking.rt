// Who asks for a mark, and for which period: an account of the book and of the identifier's pair.
ghost use Rattle.std.specs.Prelude.{◌&&◌, ◌≡◌};
ghost use Rattle.words.specs.Tests.{◌<?◌};
ghost use Rattle.words.specs.Rules.{answer};
ghost use Rattle.limits.specs.Refusals.{answer_of};
ghost use Rattle.meaning.specs.Time.{is_period};
ghost use Rattle.meaning.specs.Authorisations.{row_at, in_pair};
ghost use Rattle.meaning.specs.Ledgers.{identifier_of};
ghost use Rattle.book.specs.Structs.{time_in, rows_in, book_seen};
ghost use Rattle.marks.specs.Marks.{asking_rules};

use crate::rows::BookDay;
use book::{BookView, state};
use limits::refusals::Refusal;

// The account is in the book and in the pair of the originating authorisation.
fn may_ask(b: book::Book, originator: u8, account: u8) -> bool
    ensures { result ≡ (account <? b.setup.accounts && in_pair (row_at (rows_in b.setup) originator) account) }
{
    let row = state::row_of(b, originator as u32);
    (account < b.setup.accounts) & figures::in_pair(row, account)
}

pub(crate) fn is_period(b: book::Book, day: u16, period: u8) -> bool
    ensures { result ≡ is_period (time_in b) day period }
{
    let c = state::clock_of(b);
    clock::has_day(c, day) && clock::is_period_at(c, BookDay { book: b, day }.place(), period)
}

// NotSound, NotHeld and NoSuchAccount: the refusals that speak of no day.
pub(crate) fn asking_refusal(
    view: BookView<'_>,
    originator: u8,
    reference: u16,
    account: u8,
) -> Result<(), Refusal>
    ensures { answer_of result ≡ answer (asking_rules (book_seen view.entry) (identifier_of originator reference) account) }
{
    if !view.is_sound() {
        return Err(Refusal::NotSound);
    }
    if view.held.len() <= ledger::slots::slot_of(view.held, originator, reference) {
        return Err(Refusal::NotHeld);
    }
    if !may_ask(view.book, originator, account) {
        return Err(Refusal::NoSuchAccount);
    }
    Ok(())
}
