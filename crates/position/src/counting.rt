// What a slot counts for an account: matched volumes only, plus for account 1, minus for account 2; and when a question of a day is refused.
ghost use Rattle.std.specs.Prelude.{◌≡◌, ◌≤◌, ◌<◌, nat_abs, length, get_or, OnOk, IfOk};
ghost use Rattle.words.specs.Rules.{answer};
ghost use Rattle.limits.specs.Refusals.{answer_of};
ghost use Rattle.meaning.specs.Time.{day_of};
ghost use Rattle.meaning.specs.Ledgers.{index, origin_in};
ghost use Rattle.meaning.specs.Totals.{figures_rules};
ghost use Rattle.setups.specs.Structs.{row_of};
ghost use Rattle.book.specs.Structs.{time_in, rows_in, book_seen};
ghost use Rattle.position.specs.Counting.{DayAsked, counted_at};

use book::BookView;
use limits::refusals::Refusal;

// A day of a sound book, by its place in it.
#[derive(Clone, Copy)]
pub(crate) struct AskedDay<'a> {
    pub view: BookView<'a>,
    pub place: u8,
    ghost asked: { DayAsked (book_seen view) place },
}

// What a slot counts on a day by: its identifier's originating authorisation, and the place of the day's first period in the tables.
#[derive(Clone, Copy)]
pub(crate) struct SlotDay {
    pub origin: setups::Authorisation,
    pub first: usize,
}

// Of a slot on the day. By reference, so that no turn of a loop copies the book.
pub(crate) fn slot_day(day: &AskedDay<'_>, slot: usize) -> SlotDay
    requires { slot < length day.now.view.held.now }
    ensures { let setup = day.now.view.book.setup in
        (row_of result.origin ≡ origin_in (rows_in setup) (get_or day.now.view.held.now slot 0)) × (result.first ≡ index setup.days slot day.now.place 1) }
{
    let entry = day.view.held[slot];
    let setup = &day.view.book.setup;
    let row = setup.rows[book::state::origin_place(entry)];
    SlotDay {
        origin: book::state::origin_row(setup.authorisations, entry, row),
        first: ledger::place_of(slot as u8, setup.days, day.place, 0),
    }
}

// What a place counts for an account, where its slot's identifier has this originating authorisation.
pub(crate) fn counted_at(
    row: setups::Authorisation,
    account: u8,
    side1: &[i32],
    side2: &[i32],
    place: usize,
) -> i64
    requires { (place < length side1.now) × (place < length side2.now) }
    ensures { (result ≡ counted_at (row_of row) account side1.now side2.now place) × (nat_abs result ≤ 2147483648) }
{
    let v = side1[place];
    let w = side2[place];
    if !figures::is_matched(v, w) {
        return 0;
    }
    figures::seen_by(row, account, v)
}

// The day that a question of an account's day asks for; or its refusal: NotSound, NoSuchAccount or NoSuchDay.
pub(crate) fn day_asked(view: BookView<'_>, account: u8, day: u16) -> Result<AskedDay<'_>, Refusal>
    ensures refusal { answer_of result ≡ answer (figures_rules (book_seen view.entry) account day) }
    ensures place { IfOk result (λ asked. (asked.view ≡ view.entry) × (asked.place ≡ day_of (time_in view.entry.book) day)) }
{
    if !view.is_sound() {
        return Err(Refusal::NotSound);
    }
    if view.book.setup.accounts <= account {
        return Err(Refusal::NoSuchAccount);
    }
    if !clock::has_day(book::state::clock_of(view.book), day) {
        return Err(Refusal::NoSuchDay);
    }
    let place = (day - view.book.setup.first) as u8;
    Ok(AskedDay { view, place })
}
