// The setup rules: counts, last day, lent lengths and day codes (17), and the rows (18).
ghost use Rattle.std.specs.Prelude.{◌≡◌, if◌then◌else◌};
ghost use Rattle.words.specs.Tests.{◌<?◌};
ghost use Rattle.limits.specs.Refusals.{number_of, answer_of};
ghost use Rattle.meaning.specs.Authorisations.{row_wrong};
ghost use Rattle.meaning.specs.Books.{counts_wrong, last_day_wrong, lent_wrong, code_wrong, some_row_wrong};
ghost use Rattle.setups.specs.Structs.{row_of, setup_of};
ghost use Rattle.setups.specs.Parts.{code_refusal, amendment_refusal};

use crate::{Authorisation, Setup};
use limits::refusals::Refusal;

const EVERGREEN_WIDE: u32 = limits::EVERGREEN as u32;

// Days, accounts or authorisations out of their bounds.
pub fn counts_wrong(s: Setup) -> bool
    ensures { result ≡ counts_wrong (setup_of s) }
{
    let days = (1..=limits::MOST_DAYS).contains(&s.days);
    let accounts = (limits::FEWEST_ACCOUNTS..=limits::MOST_ACCOUNTS).contains(&s.accounts);
    let rows = (1..=limits::MOST_AUTHORISATIONS).contains(&s.authorisations);
    !(days & accounts & rows)
}

// The last day is above 65,534.
pub fn last_day_wrong(s: Setup) -> bool
    ensures { result ≡ last_day_wrong (setup_of s) }
{
    EVERGREEN_WIDE < s.first as u32 + s.days as u32
}

// The number of slots is not 1 to 256, or a lent table is not slots times days times 50 long.
pub fn lent_wrong(s: Setup, slots: usize, lent1: usize, lent2: usize) -> bool
    ensures { result ≡ lent_wrong (setup_of s) slots lent1 lent2 }
{
    if !(1..=limits::MOST_SLOTS).contains(&slots) {
        return true;
    }
    let places = slots * s.days as usize * limits::PLACES_A_DAY;
    !((lent1 == places) & (lent2 == places))
}

// Three codes, and three types, pass; the fourth is refused.
fn fourth_refusal(value: u8, refusal: Refusal) -> Result<(), Refusal>
    ensures { answer_of result ≡ (if value <? 3 then 0 else number_of refusal) }
{
    match value {
        0..=2 => Ok(()),
        _ => Err(refusal),
    }
}

// The fourth day code is refused by its own number.
pub fn code_refusal(code: u8) -> Result<(), Refusal>
    ensures { answer_of result ≡ code_refusal code }
{
    fourth_refusal(code, Refusal::SetupWrong)
}

// The fourth amendment type is refused by its own number.
pub fn amendment_refusal(amendment: u8) -> Result<(), Refusal>
    ensures { answer_of result ≡ amendment_refusal amendment }
{
    fourth_refusal(amendment, Refusal::RowWrong)
}

// Some day has no code of the three. A day past the eighth has no code to be asked of; the counts refuse it.
pub fn code_wrong(s: Setup) -> bool
    ensures { result ≡ code_wrong (setup_of s) }
{
    let codes = s.codes; // apart: for a borrow of its field the whole setup is copied
    codes
        .iter()
        .take(s.days as usize)
        .any(|code| code_refusal(*code).is_err())
}

// "an account is out of the book, the two are equal, first is 65,535, last is before first, or type is above 2"
pub fn row_wrong(accounts: u8, a: Authorisation) -> bool
    ensures { result ≡ row_wrong accounts (row_of a) }
{
    (accounts <= a.account1)
        | (accounts <= a.account2)
        | (a.account1 == a.account2)
        | (a.first == limits::EVERGREEN)
        | (a.last < a.first)
        | amendment_refusal(a.amendment).is_err()
}

// Some row is wrong; a row past the 64th is.
pub fn some_row_wrong(s: Setup) -> bool
    ensures { result ≡ some_row_wrong (setup_of s) }
{
    if limits::MOST_AUTHORISATIONS < s.authorisations {
        return true;
    }
    s.rows
        .iter()
        .take(s.authorisations as usize)
        .any(|row| row_wrong(s.accounts, *row))
}
