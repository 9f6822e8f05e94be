// What can be wrong with a nullification that is not soundness (document 01: refusals 2, 15, 9), for any book, sound or not.
ghost use Rattle.std.specs.Prelude.{◌≡◌};
ghost use Rattle.words.specs.Rules.{answer};
ghost use Rattle.meaning.specs.Calls.{accounts_wrong};
ghost use Rattle.messages.specs.Structs.{nullification_of};
ghost use Rattle.limits.specs.Refusals.{answer_of};
ghost use Rattle.book.specs.Structs.{setting_in};
ghost use Rattle.message_checks.specs.Checks.{pair_check_rules};

use book::{Book, state};
use limits::refusals::Refusal;

// An account is not in the book, or the two are one.
fn accounts_wrong(b: Book, x: messages::Nullification) -> bool
    ensures { result ≡ accounts_wrong (setting_in b) (nullification_of x) }
{
    let accounts = b.setup.accounts;
    !(x.account < accounts) | !(x.other < accounts) | (x.account == x.other)
}

// What refuses a nullification that is not soundness: 2, 15, 9.
pub fn judge_nullification(b: Book, x: messages::Nullification) -> Result<(), Refusal>
    ensures { answer_of result ≡ answer (pair_check_rules (setting_in b) (nullification_of x)) }
{
    let c = state::clock_of(b);
    if clock::every_gate_closed(c) {
        return Err(Refusal::EveryGateClosed);
    }
    if accounts_wrong(b, x) {
        return Err(Refusal::NoSuchAccount);
    }
    if b.setup.first as u32 + b.setup.days as u32 <= x.first as u32 {
        return Err(Refusal::FirstDayAfterBook);
    }
    Ok(())
}
