// What can be wrong with a notification (meaning, Notifications.antt): refusals 2 to 11, which need no table, for any book, sound or not; and 12 to
// 14.
ghost use Rattle.std.specs.Prelude.{not, ◌||◌, ◌≡◌, min};
ghost use Rattle.words.specs.Tests.{◌=?◌, between, within};
ghost use Rattle.words.specs.Rules.{answer, outcome};
ghost use Rattle.meaning.specs.Time.{day_of, current_day};
ghost use Rattle.meaning.specs.Authorisations.{row_at};
ghost use Rattle.meaning.specs.Notifications.{originator_right, highest_period, period_offends, volume_offends, first_entry, authorisation_rules, day_rules, entry_rules};
ghost use Rattle.messages.specs.Structs.{notification_of};
ghost use Rattle.setups.specs.Structs.{row_of};
ghost use Rattle.book.specs.Structs.{time_in, rows_in, setting_in};
ghost use Rattle.limits.specs.Refusals.{answer_of};
ghost use Rattle.message_checks.specs.Checks.{outcome_told, check_rules, late_rules};

use crate::Fault;
use book::{Book, state};
use limits::kinds::{Kind, ONLY_ADDITIONAL, ONLY_REPLACEMENTS};
use limits::refusals::Refusal;

const LAST_PLACE: u16 = 255;

// "key wrong, or agent is neither of its two". The row of its authorisation is handed over, here and below, since reading it out of a book copies
// all of them.
fn key_or_agent_wrong(row: setups::Authorisation, key: u16, agent: u8) -> bool
    ensures { result ≡ not (key =? row.key) || not (agent =? row.agent1 || agent =? row.agent2) }
{
    (key != row.key) | !((agent == row.agent1) | (agent == row.agent2))
}

// Its authorisation is in force today.
fn in_force(row: setups::Authorisation, today: u32) -> bool
    ensures { result ≡ between row.first row.last today }
{
    (row.first as u32 <= today) & (today <= row.last as u32)
}

// The originator is neither its authorisation nor an expired one of the same accounts.
fn originator_wrong(
    b: Book,
    n: messages::Notification,
    row: setups::Authorisation,
    today: u32,
) -> bool
    requires { (today ≡ current_day (time_in b)) × (row_of row ≡ row_at (rows_in b.setup) n.authorisation) }
    ensures { result ≡ not (originator_right (setting_in b) (notification_of n)) }
{
    if n.originator == n.authorisation {
        return false;
    }
    let o = state::row_of(b, n.originator as u32);
    let same = (o.account1 == row.account1) & (o.account2 == row.account2);
    !((n.originator < b.setup.authorisations) & ((o.last as u32) < today) & same)
}

// The place of a day in the book; at most 255, which is past every book's last.
fn place_of(b: Book, day: u16) -> u8
    ensures { result ≡ min (day_of (time_in b) day) 255 }
{
    let s = b.setup;
    if day <= s.first {
        return 0;
    }
    let place = day - s.first;
    if LAST_PLACE <= place {
        return 255;
    }
    place as u8
}

// The last period that an entry may have.
fn highest_period(b: Book, n: messages::Notification) -> u8
    ensures { result ≡ highest_period (setting_in b) (notification_of n) }
{
    if n.first != n.last {
        return limits::PLAIN_DAY;
    }
    let place = place_of(b, n.first);
    clock::periods_at(state::clock_of(b), place)
}

// The place of the first entry whose period is 0, too high or not above the one before it, or that is past the 50th; the count where there is none.
fn first_wrong_period(b: Book, n: messages::Notification) -> u8
    ensures { result ≡ first_entry (notification_of n) (period_offends (setting_in b) (notification_of n)) }
{
    let count = messages::entries_inside(n.count);
    let highest = highest_period(b, n);
    let mut before: u8 = 0;
    for k in 0..count {
        let period = n.entries[k as usize].period;
        if !((before < period) & (period <= highest)) {
            return k;
        }
        before = period;
    }
    count
}

fn volume_out(v: i32) -> bool
    ensures { result ≡ not (within 99999999 v) }
{
    !(limits::LEAST_KWH..=limits::MOST_KWH).contains(&v)
}

// The place of the first entry whose volume is out of range; the count where there is none.
fn first_wrong_volume(n: messages::Notification) -> u8
    ensures { result ≡ first_entry (notification_of n) (volume_offends (notification_of n)) }
{
    for k in 0..messages::entries_inside(n.count) {
        if volume_out(n.entries[k as usize].volume) {
            return k;
        }
    }
    n.count
}

// 3 to 6: its authorisation is one of the book's, and it may be sent under it today. That day is found once, and handed to this and the next.
fn authorisation_refusal(b: Book, n: messages::Notification, today: u32) -> Result<(), Refusal>
    requires { today ≡ current_day (time_in b) }
    ensures { answer_of result ≡ answer (authorisation_rules (setting_in b) (notification_of n)) }
{
    if b.setup.authorisations <= n.authorisation {
        return Err(Refusal::NoAuthorisation);
    }
    let row = state::row_of(b, n.authorisation as u32);
    if key_or_agent_wrong(row, n.key, n.agent) {
        return Err(Refusal::KeyOrAgentWrong);
    }
    if !in_force(row, today) {
        return Err(Refusal::NotInForce);
    }
    if originator_wrong(b, n, row, today) {
        return Err(Refusal::OriginatorWrong);
    }
    Ok(())
}

// 7 to 9: its first and last day, against each other, today and the book.
fn days_refusal(b: Book, n: messages::Notification, today: u32) -> Result<(), Refusal>
    requires { today ≡ current_day (time_in b) }
    ensures { answer_of result ≡ answer (day_rules (setting_in b) (notification_of n)) }
{
    if n.last < n.first {
        return Err(Refusal::LastBeforeFirst);
    }
    if (n.last as u32) < today {
        return Err(Refusal::LastDayPast);
    }
    let s = b.setup;
    if s.first as u32 + s.days as u32 <= n.first as u32 {
        return Err(Refusal::FirstDayAfterBook);
    }
    Ok(())
}

// 10 and 11: its entries, with the place of the first that offends (02, A3).
fn entries_outcome(b: Book, n: messages::Notification) -> Result<(), Fault>
    ensures { outcome_told result ≡ outcome (entry_rules (setting_in b) (notification_of n)) }
{
    let period = first_wrong_period(b, n);
    if period < n.count {
        return Err(Fault {
            refusal: Refusal::PeriodWrong,
            place: period,
        });
    }
    let volume = first_wrong_volume(n);
    if volume < n.count {
        return Err(Fault {
            refusal: Refusal::VolumeWrong,
            place: volume,
        });
    }
    Ok(())
}

// The first rule from 2 to 11 that refuses the notification, and the place that it carries.
pub fn checks_outcome(b: Book, n: messages::Notification) -> Result<(), Fault>
    ensures { outcome_told result ≡ outcome (check_rules (setting_in b) (notification_of n)) }
{
    let time = state::clock_of(b);
    if clock::every_gate_closed(time) {
        return Err(Refusal::EveryGateClosed.into());
    }
    let today = clock::current_day(time);
    authorisation_refusal(b, n, today)?;
    days_refusal(b, n, today)?;
    entries_outcome(b, n)
}

// 12, 13 and 14, of its kind, its authorisation's type, its slot and the number of slots. The kind comes by its number, as the rules have it: a
// narrower type would ask more of callers.
pub fn late_refusal(kind: u8, amendment: u8, slot: usize, slots: usize) -> Result<(), Refusal>
    ensures { answer_of result ≡ answer (late_rules kind amendment slot slots) }
{
    if (kind == Kind::Replacement as u8) & (amendment == ONLY_ADDITIONAL) {
        return Err(Refusal::ReplacementNotAllowed);
    }
    if (kind == Kind::Additional as u8) & (amendment == ONLY_REPLACEMENTS) {
        return Err(Refusal::AdditionalNotAllowed);
    }
    if slots <= slot {
        return Err(Refusal::NoSlot);
    }
    Ok(())
}
