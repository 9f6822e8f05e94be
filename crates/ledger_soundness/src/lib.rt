// The soundness of lent tables: what stands in their places, and which identifiers are held (meaning, Soundness.antt).
#![tactic(auto)]

ghost use Rattle.std.specs.Prelude.{◌||◌, ◌≡◌, ℕ, ◌+◌, ◌≤◌, ◌<◌, length, get_or};
ghost use Rattle.words.specs.Tests.{◌<?◌};
ghost use Rattle.words.specs.Below.{every_below};
ghost use Rattle.meaning.specs.Ledgers.{the_mark};
ghost use Rattle.meaning.specs.Soundness.{slot_right, held_right};
ghost use Rattle.ledger_soundness.specs.Parts.{below, blank, right, other, DayLength, row_right, days_right, SlotInside, side_right};

// The periods of the shortest day.
const LEAST_PERIODS: usize = limits::SHORT_DAY as usize;

// The mark, or a volume in range. No branch, so that a scan runs on vectors.
fn is_right(v: i32) -> bool
    ensures { result ≡ right v }
{
    (v == ledger::MARK) | ((limits::LEAST_KWH <= v) & (v <= limits::MOST_KWH))
}

// Nothing stands in any place of the part.
pub fn all_blank(part: &[i32]) -> bool
    ensures { result ≡ every_below (length part.now) (λ (k : ℕ). blank (get_or part.now k the_mark)) }
{
    part.iter()
        .copied()
        .fold(true, |ok, v| ok & (v == ledger::MARK))
}

// Each place of the part holds the mark or a volume in range.
pub fn all_right(part: &[i32]) -> bool
    ensures { result ≡ every_below (length part.now) (λ (k : ℕ). right (get_or part.now k the_mark)) }
{
    part.iter().copied().fold(true, |ok, v| ok & is_right(v))
}

// Nothing stands in the part from place `from` on.
fn blank_from(part: &[i32], from: usize) -> bool
    ensures { result ≡ every_below (length part.now) (λ (k : ℕ). k <? from || blank (get_or part.now k the_mark)) }
{
    part.iter()
        .copied()
        .enumerate()
        .fold(true, |ok, (k, v)| ok & ((k < from) | (v == ledger::MARK)))
}

// One day of a slot: a held slot's periods are right, and all else is blank. Only the last four places can be past a day's length, so that all 50 are
// scanned at once; a day whose code is unknown has no periods.
fn row_right(side: &[i32], base: usize, periods: usize, held: bool) -> bool
    requires { DayLength periods × (base + 50 ≤ length side.now) }
    ensures { result ≡ row_right side.now base periods held }
{
    let end = base + limits::PLACES_A_DAY;
    if held & (LEAST_PERIODS <= periods) {
        let last = base + LEAST_PERIODS;
        return all_right(&side[base..end]) & blank_from(&side[last..end], periods - LEAST_PERIODS);
    }
    all_blank(&side[base..end])
}

// No place of the part holds the entry. No branch, so that the scan runs on vectors.
fn none_holds(part: &[u32], entry: u32) -> bool
    ensures { result ≡ every_below (length part.now) (λ (k : ℕ). other entry (get_or part.now k 0)) }
{
    part.iter().copied().fold(true, |ok, v| ok & (v != entry))
}

// The slot is unheld, or its identifier names a known originator and stands in no slot before.
fn slot_right(held: &[u32], known: usize, k: usize) -> bool
    requires { k < length held.now }
    ensures { result ≡ slot_right (below known) held.now k (get_or held.now k 0) }
{
    let entry = held[k];
    if entry == 0 {
        return true;
    }
    let originator = ledger::slots::originator_of(entry) as usize;
    (originator < known) & none_holds(&held[0..k], entry)
}

// Held identifiers differ and name known originators.
pub fn held_right(held: &[u32], known: usize) -> bool
    ensures { result ≡ held_right (below known) held.now }
{
    let mut ok = true;
    for k in 0..held.len() {
        ok &= slot_right(held, known, k);
    }
    ok
}

// Every day of a slot.
fn days_right(side: &[i32], slot: u8, held: bool, c: clock::Clock) -> bool
    requires { SlotInside side.now slot c.days }
    ensures { result ≡ days_right side.now slot held c }
{
    let codes = c.codes; // copied once a slot: a field indexed by a variable is copied whole each time
    let mut ok = true;
    for d in 0..c.days {
        let base = ledger::place_of(slot, c.days, d, 0);
        let periods = clock::periods_of(codes[d as usize]) as usize;
        ok &= row_right(side, base, periods, held);
    }
    ok
}

// One side's table: "each volume is in range or the mark; unheld slots and places past a day's length hold the mark".
pub fn side_right(side: &[i32], held: &[u32], c: clock::Clock) -> bool
    ensures { result ≡ side_right side.now held.now c }
{
    let days = c.days as usize;
    if limits::MOST_DAYS_WIDE < days {
        return false;
    }
    if limits::MOST_SLOTS < held.len() {
        return false;
    }
    if side.len() != held.len() * days * limits::PLACES_A_DAY {
        return false;
    }
    let mut ok = true;
    for (slot, entry) in held.iter().enumerate() {
        ok &= days_right(side, slot as u8, *entry != 0, c);
    }
    ok
}
