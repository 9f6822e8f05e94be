// "Totals count matched volumes only, plus for account 1, minus for account 2." One period's, or all of a day's at once.
ghost use Rattle.std.specs.Prelude.{◌≡◌, ℕ, suc, ◌+◌, ◌≤◌, ◌<◌, ℤ, pos, nat_abs, ◌+ℤ◌, length, get_or};
ghost use Rattle.words.specs.Lists.{on_front};
ghost use Rattle.words.specs.Rules.{answer};
ghost use Rattle.limits.specs.Refusals.{answer_of};
ghost use Rattle.meaning.specs.Time.{periods_at};
ghost use Rattle.meaning.specs.Totals.{sum_of};
ghost use Rattle.setups.specs.Structs.{row_of};
ghost use Rattle.book.specs.Structs.{time_in, book_seen};
ghost use Rattle.position.specs.Counting.{PartInside, counted_at, sum_answered};
ghost use Rattle.position.specs.Totals.{totalled_of, totalled, day_total_rules, day_totals};

use crate::counting::{self, AskedDay};
use book::BookView;
use limits::refusals::Refusal;

// A sum as it is answered: refused where it has more than 11 digits.
fn answered(kwh: i64) -> Result<i64, Refusal>
    ensures { totalled_of result ≡ sum_answered kwh }
{
    if (limits::LEAST_TOTAL..=limits::MOST_TOTAL).contains(&kwh) {
        return Ok(kwh);
    }
    Err(Refusal::TotalTooLarge)
}

// What all slots count together on the day in the period at place p, from 0. A sound book's slots are few, so the sum fits.
fn sum_of(day: AskedDay<'_>, account: u8, p: u8) -> i64
    requires { p < 50 }
    ensures { result ≡ sum_of (book_seen day.entry.view) account day.entry.place (suc p) }
{
    let mut kwh: i64 = 0;
    for slot in 0..day.view.held.len() {
        let at = counting::slot_day(&day, slot);
        let place = at.first + p as usize;
        kwh += counting::counted_at(at.origin, account, day.view.side1, day.view.side2, place);
    }
    kwh
}

// An account's total in one period.
pub fn total(view: BookView<'_>, account: u8, day: u16, period: u8) -> Result<i64, Refusal>
    ensures { totalled_of result ≡ totalled (book_seen view.entry) account day period }
{
    let asked = counting::day_asked(view, account, day)?;
    if !clock::is_period_at(book::state::clock_of(view.book), asked.place, period) {
        return Err(Refusal::NoSuchDay);
    }
    answered(sum_of(asked, account, period - 1))
}

// Nothing counted yet in any of the day's periods.
fn clear(out: &mut [i64], periods: usize)
    requires { periods ≤ length out.old }
    ensures { out.new ≡ on_front periods (λ (p : ℕ) (old : ℤ). pos 0) out.old }
{
    out[..periods].fill(0);
}

// Adds what a slot counts in each period of the day, the first of which has this place in the tables. A slot of other accounts counts nothing and is
// passed over.
fn add_slot(
    origin: setups::Authorisation,
    account: u8,
    side1: &[i32],
    side2: &[i32],
    first: usize,
    periods: usize,
    out: &mut [i64],
)
    requires { PartInside first periods side1.now side2.now × (periods ≤ length out.old) × ((p : ℕ) → p < periods → nat_abs (get_or out.old p (pos 0)) ≤ 25600000000) }
    ensures { out.new ≡ on_front periods (λ (p : ℕ) (old : ℤ). old +ℤ counted_at (row_of origin) account side1.now side2.now (first + p)) out.old }
{
    if !figures::in_pair(origin, account) {
        return;
    }
    for p in 0..periods {
        out[p] += counting::counted_at(origin, account, side1, side2, first + p);
    }
}

// What all slots count together in every period of the day: one pass over what is lent. Of a sound book each sum is a total: 26 never comes.
fn store_totals(day: AskedDay<'_>, account: u8, out: &mut [i64])
    requires { periods_at (time_in day.view.book).codes day.place ≤ length out.old }
    ensures { let d = day.entry.place in
        out.new ≡ on_front (periods_at (time_in day.entry.view.book).codes d) (λ (p : ℕ) (old : ℤ). sum_of (book_seen day.entry.view) account d (suc p)) out.old }
{
    let periods = clock::periods_at(book::state::clock_of(day.view.book), day.place) as usize;
    clear(out, periods);
    for slot in 0..day.view.held.len() {
        let at = counting::slot_day(&day, slot);
        add_slot(
            at.origin,
            account,
            day.view.side1,
            day.view.side2,
            at.first,
            periods,
            out,
        );
    }
}

// All of an account's totals on a day, each stored at its period's place of `out`, from 0; a refusal changes nothing.
pub fn day_totals(view: BookView<'_>, account: u8, day: u16, out: &mut [i64]) -> Result<(), Refusal>
    ensures { let before = book_seen view.entry in
        (answer_of result ≡ answer (day_total_rules before account day (length out.old))) × (out.new ≡ day_totals before account day out.old) }
{
    let asked = counting::day_asked(view, account, day)?;
    let periods = clock::periods_at(book::state::clock_of(view.book), asked.place);
    if out.len() < periods as usize {
        return Err(Refusal::NoRoom);
    }
    store_totals(asked, account, out);
    Ok(())
}
