// What an accepted message makes of the sides' tables (meaning, Messages.antt): a slot's open places from a first day on, written by day runs.
#![tactic(auto)]

mod placing; // placing.rt: a notification's volumes on the days of each length

ghost use Rattle.std.specs.Prelude.{cond, ◌≡◌, ℕ, suc, ◌-◌, ◌≤◌, min, length};
ghost use Rattle.words.specs.Tests.{◌=?◌};
ghost use Rattle.words.specs.Lists.{build, map_at};
ghost use Rattle.meaning.specs.Time.{periods_at, gates_before};
ghost use Rattle.meaning.specs.Ledgers.{day_at, Side};
ghost use Rattle.meaning.specs.Messages.{volume, volume_on, rewritten};
ghost use Rattle.messages.specs.Structs.{notification_of};
ghost use Rattle.setups.specs.Structs.{rows_of};
ghost use Rattle.clock.specs.Structs.{time_of};
ghost use Rattle.book.specs.Structs.{time_in};
ghost use Rattle.message_effects.specs.Placing.{laid_volume};
ghost use Rattle.message_effects.specs.Effects.{only, slot_rule, DayInside, pair_in, nullified, pair_blanked};

use book::{Book, state};

// The volume that a notification gives for each of its periods. From the last entry down, so that a period's first entry stands.
fn volumes_of(n: messages::Notification) -> [i32; limits::PLACES_A_DAY]
    ensures { result ≡ build 50 (λ (p : ℕ). volume (notification_of n).entries (suc p)) }
{
    let mut volumes: [i32; limits::PLACES_A_DAY] = [0; limits::PLACES_A_DAY];
    let count = messages::entries_inside(n.count) as usize;
    for e in n.entries[..count].iter().rev() {
        let place = e.period as usize;
        if (1..=limits::PLACES_A_DAY).contains(&place) {
            volumes[place - 1] = e.volume;
        }
    }
    volumes
}

// How many periods of the day at place d are closed.
fn closed_on(c: clock::Clock, d: u8) -> usize
    ensures { result ≡ min (c.closed - gates_before (time_of c).codes d) (periods_at (time_of c).codes d) }
{
    let closed = c.closed.saturating_sub(clock::gates_before(c, d));
    closed.min(clock::periods_at(c, d) as u16) as usize
}

// One day of a slot.
fn write_day(
    side: &mut [i32],
    c: clock::Clock,
    slot: u8,
    d: u8,
    first: u16,
    until: u32,
    laid: &[i32],
)
    requires { DayInside d c.days (length laid.now) }
    ensures { side.new ≡ map_at (only (λ (j : ℕ). day_at c.days j =? d) (slot_rule (time_of c) slot first until (laid_volume laid.now))) side.old }
{
    let day = c.first as u32 + d as u32;
    if day < first as u32 {
        return;
    }
    let base = ledger::place_of(slot, c.days, d, 0);
    let closed = closed_on(c, d);
    let periods = clock::periods_at(c, d);
    let open = periods as usize - closed;
    if day < until {
        let from = placing::laid_from(periods) + closed;
        ledger::store_run(side, base + closed, &laid[from..from + open]);
        return;
    }
    ledger::blank_run(side, base + closed, open);
}

// Every day of a slot: what is laid out for it on the days before `until`, and the mark from there on.
fn write_days(side: &mut [i32], c: clock::Clock, slot: u8, first: u16, until: u32, laid: &[i32])
    requires { length laid.now ≡ 150 }
    ensures { side.new ≡ map_at (slot_rule (time_of c) slot first until (laid_volume laid.now)) side.old }
{
    for d in 0..c.days {
        write_day(side, c, slot, d, first, until, laid);
    }
}

// A side, where the notification writes it: what is laid out to its last day, and the mark after it.
fn write_side(
    side: &mut [i32],
    writes: bool,
    c: clock::Clock,
    slot: u8,
    first: u16,
    last: u16,
    laid: &[i32],
)
    requires { length laid.now ≡ 150 }
    ensures { side.new ≡ cond writes (map_at (slot_rule (time_of c) slot first (suc last) (laid_volume laid.now)) side.old) side.old }
{
    if writes {
        write_days(side, c, slot, first, last as u32 + 1, laid);
    }
}

// A notification's slot, on the sides that it writes. Its volumes are laid out once for both.
pub fn write_slot(
    side1: &mut [i32],
    side2: &mut [i32],
    writes1: bool,
    writes2: bool,
    c: clock::Clock,
    slot: u8,
    n: messages::Notification,
)
    ensures { let rule = slot_rule (time_of c) slot n.first (suc n.last) (volume_on (n.first =? n.last) (notification_of n).entries) in
        (side1.new ≡ cond writes1 (map_at rule side1.old) side1.old) × (side2.new ≡ cond writes2 (map_at rule side2.old) side2.old) }
{
    let volumes = volumes_of(n);
    let laid = placing::laid_out(c, n.first == n.last, &volumes);
    write_side(side1, writes1, c, slot, n.first, n.last, &laid);
    write_side(side2, writes2, c, slot, n.first, n.last, &laid);
}

// A slot's entry holds an identifier whose originating authorisation is between the two accounts, in either order.
fn of_pair(b: Book, entry: u32, account: u8, other: u8) -> bool
    ensures { result ≡ pair_in (rows_of b.setup.authorisations b.setup.rows) account other entry }
{
    if entry == 0 {
        return false;
    }
    let row = state::row_of(b, ledger::slots::originator_of(entry));
    ((account == row.account1) & (other == row.account2))
        | ((other == row.account1) & (account == row.account2))
}

// On few slots: the mark at the open places from the first day on, in each slot whose identifier is between the two accounts.
fn blank_slots(side: &mut [i32], held: &[u32], b: Book, account: u8, other: u8, first: u16)
    requires { length held.now ≤ 256 }
    ensures { (σ : Side) → side.new ≡ rewritten (rows_of b.setup.authorisations b.setup.rows) (time_in b) (nullified account other first) held.now σ side.old }
{
    let c = state::clock_of(b);
    let unused: [i32; placing::LAID_OUT] = [0; placing::LAID_OUT];
    for (s, entry) in held.iter().enumerate() {
        if of_pair(b, *entry, account, other) {
            write_days(side, c, s as u8, first, 0, &unused);
        }
    }
}

// A nullification: in each slot whose identifier is between the two accounts the mark, at the open places from the first day on. Either side.
// More slots than a book has stay as they came. The side is written, so it comes beside the book and not in a view.
pub fn blank_pair(side: &mut [i32], held: &[u32], b: Book, account: u8, other: u8, first: u16)
    ensures { (σ : Side) → side.new ≡ pair_blanked b account other first held.now σ side.old }
{
    if limits::MOST_SLOTS < held.len() {
        return;
    }
    blank_slots(side, held, b, account, other, first);
}
