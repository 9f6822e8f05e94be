// The day's figures: sold, bought and net MWh, "taking each identifier's matched volume by itself, signed for the account as in totals".
ghost use Rattle.std.specs.Prelude.{true, false, ◌≡◌, ◌≤◌, ◌<◌, nat_abs};
ghost use Rattle.meaning.specs.Totals.{day_sum};
ghost use Rattle.setups.specs.Structs.{row_of};
ghost use Rattle.book.specs.Structs.{book_seen};
ghost use Rattle.position.specs.Counting.{PartInside, SumsOf, part_of, slot_part, figures_for};
ghost use Rattle.position.specs.Totals.{figured_of, figured};

use crate::counting::{self, AskedDay};
use crate::{DayFigures, Sums};
use book::BookView;
use limits::refusals::Refusal;

// What a slot sold and bought over the periods of a day, whose first has this place in the tables. No branch within the loop but selections.
fn slot_sums(
    origin: setups::Authorisation,
    account: u8,
    side1: &[i32],
    side2: &[i32],
    first: usize,
    periods: usize,
) -> Sums
    requires { PartInside first periods side1.now side2.now × (periods ≤ 50) }
    ensures { let sum = slot_part false (row_of origin) account side1.now side2.now first periods in
        let negated = slot_part true (row_of origin) account side1.now side2.now first periods in
        SumsOf result sum negated 107374182400 }
{
    let mut sold: i64 = 0;
    let mut bought: i64 = 0;
    if figures::in_pair(origin, account) {
        for p in 0..periods {
            let kwh = counting::counted_at(origin, account, side1, side2, first + p);
            sold += kwh.max(0);
            bought += (-kwh).max(0);
        }
    }
    Sums { sold, bought }
}

// What all slots sold and bought over the day. A sound book's slots are few, so the sums fit and are converted exactly.
fn day_sums(day: AskedDay<'_>, account: u8) -> Sums
    ensures { let before = book_seen day.entry.view in
        let d = day.entry.place in
        SumsOf result (day_sum (part_of false) before account d) (day_sum (part_of true) before account d) 27487790694400 }
{
    let periods = clock::periods_at(book::state::clock_of(day.view.book), day.place) as usize;
    let mut sold: i64 = 0;
    let mut bought: i64 = 0;
    for slot in 0..day.view.held.len() {
        let at = counting::slot_day(&day, slot);
        let sums = slot_sums(
            at.origin,
            account,
            day.view.side1,
            day.view.side2,
            at.first,
            periods,
        );
        sold += sums.sold;
        bought += sums.bought;
    }
    Sums { sold, bought }
}

// The net figure is the difference of the whole numbers, so that each of the three is rounded once.
fn day_figures(sold: i64, bought: i64) -> DayFigures
    requires { (nat_abs sold ≤ 27487790694400) × (nat_abs bought ≤ 27487790694400) }
    ensures { result ≡ figures_for sold bought }
{
    let net = sold - bought;
    DayFigures {
        sold: figures::mwh(sold),
        bought: figures::mwh(bought),
        net: figures::mwh(net),
    }
}

// A day's figures of an account.
pub fn figures(view: BookView<'_>, account: u8, day: u16) -> Result<DayFigures, Refusal>
    ensures { figured_of result ≡ figured (book_seen view.entry) account day }
{
    let asked = counting::day_asked(view, account, day)?;
    let sums = day_sums(asked, account);
    Ok(day_figures(sums.sold, sums.bought))
}
