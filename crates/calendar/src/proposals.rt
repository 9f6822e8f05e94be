// The codes of days that follow each other, so that nobody types them.
ghost use Rattle.std.specs.Prelude.{◌≡◌, ◌+◌, ◌≤◌};
ghost use Rattle.words.specs.Rules.{answer};
ghost use Rattle.limits.specs.Refusals.{answer_of};
ghost use Rattle.calendar.specs.Answers.{proposal_rules, codes_from, proposed};
ghost use Rattle.calendar.specs.Outcomes.{as_proposed};

use crate::lengths;
use limits::refusals::Refusal;

const MOST_DAYS: u32 = limits::MOST_DAYS as u32;

const EVERGREEN: u32 = limits::EVERGREEN as u32;

// Whether so many days from a first one on are refused, and why. The days follow each other, so the last of them is the first to leave the calendar.
fn proposal_refusal(first: u32, days: u32) -> Result<(), Refusal>
    ensures { answer_of result ≡ answer (proposal_rules first days) }
{
    if !(1..=MOST_DAYS).contains(&days) {
        return Err(Refusal::SetupWrong);
    }
    if EVERGREEN - days < first {
        return Err(Refusal::SetupWrong);
    }
    if crate::LAST_DAY + 1 - days < first {
        return Err(Refusal::NotInCalendar);
    }
    Ok(())
}

// The codes of days that are in the calendar.
fn codes_from(first: u32, days: u32) -> [u8; limits::MOST_DAYS_WIDE]
    requires { first + days ≤ 36525 }
    ensures { result ≡ codes_from first days }
{
    let mut codes = [0u8; limits::MOST_DAYS_WIDE];
    for (d, code) in codes.iter_mut().enumerate() {
        if (d as u32) < days {
            *code = lengths::code_on((first + d as u32) as u16);
        }
    }
    codes
}

// Given a first day and a number of days, the right codes: 17 for days that no setup has, then 27.
pub fn propose_codes(first: u32, days: u32) -> Result<[u8; limits::MOST_DAYS_WIDE], Refusal>
    ensures { as_proposed result ≡ proposed first days }
{
    proposal_refusal(first, days)?;
    Ok(codes_from(first, days))
}
