// "Each figure on a bar .. is seen from the asking account": the mark of a period, and the marks of a whole day.
ghost use Rattle.std.specs.Prelude.{◌≡◌, ℕ, ◌+◌, ◌≤◌, Float, length};
ghost use Rattle.words.specs.Lists.{on_front};
ghost use Rattle.words.specs.Rules.{answer};
ghost use Rattle.limits.specs.Refusals.{answer_of};
ghost use Rattle.meaning.specs.Ledgers.{identifier_of};
ghost use Rattle.setups.specs.Structs.{row_of};
ghost use Rattle.book.specs.Structs.{book_seen};
ghost use Rattle.bar.specs.Figures.{case_of, first_of, second_of};
ghost use Rattle.marks.specs.Marks.{marked_of, marked, day_mark_rules, day_marked, bar_from};

use crate::asking;
use crate::rows::BookDay;
use bar::Bar;
use book::{BookView, state};
use limits::refusals::Refusal;

// ---- a mark

// The mark of a period, seen from the asking account.
pub fn mark(
    view: BookView<'_>,
    originator: u8,
    reference: u16,
    account: u8,
    day: u16,
    period: u8,
) -> Result<Bar, Refusal>
    ensures { marked_of result ≡ marked (book_seen view.entry) (identifier_of originator reference) account day period }
{
    asking::asking_refusal(view, originator, reference, account)?;
    if !asking::is_period(view.book, day, period) {
        return Err(Refusal::NoSuchDay);
    }
    let slot = ledger::slots::slot_of(view.held, originator, reference);
    let asked = BookDay {
        book: view.book,
        day,
    };
    let place = asked.index_of(slot, period);
    let v = ledger::volume_at(view.side1, place);
    let w = ledger::volume_at(view.side2, place);
    let row = state::row_of(view.book, originator as u32);
    Ok(bar::bar_of(row, account, v, w))
}

// ---- the marks of a day

// The marks of `count` places of both sides from `start` on, as an account of the pair sees them, into the front of the three buffers.
fn write_marks(
    side1: &[i32],
    side2: &[i32],
    start: usize,
    count: usize,
    row: setups::Authorisation,
    account: u8,
    cases: &mut [u8],
    firsts: &mut [f64],
    seconds: &mut [f64],
)
    requires { (start + count ≤ 102400) × (count ≤ length cases.old) × (count ≤ length firsts.old) × (count ≤ length seconds.old) }
    ensures { let bar = bar_from (row_of row) account side1.now side2.now start in
        (cases.new ≡ on_front count (λ (p : ℕ) (old : ℕ). case_of (bar p)) cases.old) × (firsts.new ≡ on_front count (λ (p : ℕ) (old : Float). first_of (bar p)) firsts.old) × (seconds.new ≡ on_front count (λ (p : ℕ) (old : Float). second_of (bar p)) seconds.old) }
{
    for p in 0..count {
        let v = ledger::volume_at(side1, start + p);
        let w = ledger::volume_at(side2, start + p);
        let bar = bar::bar_of(row, account, v, w);
        cases[p] = bar::case_of(bar);
        firsts[p] = bar::first_of(bar);
        seconds[p] = bar::second_of(bar);
    }
}

// The marks of a whole day, a place a period: the case's number, and its two figures, in three buffers, as C has them. A refusal changes no buffer.
pub fn day_marks(
    view: BookView<'_>,
    originator: u8,
    reference: u16,
    account: u8,
    day: u16,
    cases: &mut [u8],
    firsts: &mut [f64],
    seconds: &mut [f64],
) -> Result<(), Refusal>
    ensures { let before = book_seen view.entry in
        let i = identifier_of originator reference in
        let a = answer (day_mark_rules before i account day (length cases.old) (length firsts.old) (length seconds.old)) in
        (answer_of result ≡ a) × (cases.new ≡ day_marked case_of before i account day a cases.old) × (firsts.new ≡ day_marked first_of before i account day a firsts.old) × (seconds.new ≡ day_marked second_of before i account day a seconds.old) }
{
    asking::asking_refusal(view, originator, reference, account)?;
    if !clock::has_day(state::clock_of(view.book), day) {
        return Err(Refusal::NoSuchDay);
    }
    let asked = BookDay {
        book: view.book,
        day,
    };
    let periods = asked.periods() as usize;
    if (cases.len() < periods) | (firsts.len() < periods) | (seconds.len() < periods) {
        return Err(Refusal::NoRoom);
    }
    let slot = ledger::slots::slot_of(view.held, originator, reference);
    let start = asked.index_of(slot, 1);
    let row = state::row_of(view.book, originator as u32);
    write_marks(
        view.side1, view.side2, start, periods, row, account, cases, firsts, seconds,
    );
    Ok(())
}
