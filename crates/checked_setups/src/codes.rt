// The days and codes of a setup against the calendar: 27, then 28. Asked where 17 has passed, so that there are 1 to 8 days.
ghost use Rattle.std.specs.Prelude.{◌≡◌, ◌+◌, ◌≤◌};
ghost use Rattle.words.specs.Rules.{answer};
ghost use Rattle.limits.specs.Refusals.{answer_of};
ghost use Rattle.setups.specs.Structs.{setup_of};
ghost use Rattle.checked_setups.specs.Checked.{some_code_disagrees, calendar_rules};

use limits::refusals::Refusal;
use setups::Setup;

// Some day's code is not the calendar's.
fn some_code_disagrees(s: Setup) -> bool
    requires { (s.days ≤ 8) × (s.first + s.days ≤ 36525) }
    ensures { result ≡ some_code_disagrees (setup_of s) }
{
    let codes = s.codes; // apart: for a borrow of its field the whole setup is copied
    for d in 0..s.days {
        let coded = calendar::lengths::code_of_day(s.first as u32 + d as u32);
        if coded != Ok(codes[d as usize]) {
            return true;
        }
    }
    false
}

// Whether the calendar refuses a setup, and why. Its days follow each other, so the last of them is the first to leave the calendar.
pub(crate) fn calendar_refusal(s: Setup) -> Result<(), Refusal>
    requires { (1 ≤ s.days) × (s.days ≤ 8) }
    ensures { answer_of result ≡ answer (calendar_rules (setup_of s)) }
{
    if calendar::LAST_DAY + 1 < s.first as u32 + s.days as u32 {
        return Err(Refusal::NotInCalendar);
    }
    if some_code_disagrees(s) {
        return Err(Refusal::CodeDisagrees);
    }
    Ok(())
}
