// The kind of a notification (meaning, Notifications.antt): initial, replacement or additional.
#![tactic(auto)]

ghost use Rattle.std.specs.Prelude.{[], ◌≡◌, suc, ◌-◌, ◌<◌, length};
ghost use Rattle.words.specs.Below.{some_below};
ghost use Rattle.meaning.specs.Time.{gates_before};
ghost use Rattle.meaning.specs.Authorisations.{row_at};
ghost use Rattle.meaning.specs.Ledgers.{index};
ghost use Rattle.meaning.specs.Notifications.{is_replacement, is_other, overlaps, kind_of, kind_number};
ghost use Rattle.messages.specs.Structs.{notification_of};
ghost use Rattle.setups.specs.Structs.{row_of};
ghost use Rattle.book.specs.Structs.{time_in, rows_in, setting_in, book_of, book_seen};
ghost use Rattle.limits.specs.Kinds.{number_of_kind, number_found};
ghost use Rattle.notification_kinds.specs.Kinds.{Fits, Inside, states_place, periods_from, periods_within, from_first, fits, kind_answer};

use book::{Book, BookView, state};
use limits::kinds::Kind;
use setups::authorisations;

// A slot states something of a day and a period, counted from 0, on a side that is written. It is asked innermost, and reads
// no more of a book than these.
fn states_at(
    side1: &[i32],
    side2: &[i32],
    w1: bool,
    w2: bool,
    days: u8,
    s: usize,
    d: u8,
    p: u16,
) -> bool
    requires { Inside side1.now side2.now days s d p }
    ensures { result ≡ states_place side1.now side2.now w1 w2 (index days s d (suc p)) }
{
    let i = ledger::place_of(s as u8, days, d, p as u8);
    let stated1 = ledger::states(side1[i]);
    let stated2 = ledger::states(side2[i]);
    (w1 & stated1) | (w2 & stated2)
}

// How many periods of a day are closed, or more where the day is past.
fn first_open(b: Book, d: u8) -> u16
    ensures { result ≡ b.closed - gates_before (time_in b).codes d }
{
    let c = state::clock_of(b);
    c.closed.saturating_sub(clock::gates_before(c, d))
}

// The periods of a day that is not before `first`; none of a day before it.
fn periods_from(b: Book, first: u16, d: u8) -> u16
    ensures { result ≡ periods_from (time_in b) first d }
{
    let c = state::clock_of(b);
    let periods = clock::periods_at(c, d);
    if c.first as u32 + (d as u32) < first as u32 {
        return 0;
    }
    periods as u16
}

// The periods of a day that is one of `first` to `last`; none of another.
fn periods_within(b: Book, first: u16, last: u16, d: u8) -> u16
    ensures { result ≡ periods_within (time_in b) first last d }
{
    let s = b.setup;
    if (last as u32) < s.first as u32 + d as u32 {
        return 0;
    }
    periods_from(b, first, d)
}

// A notification asked of a book whose tables fit it, with the row of its authorisation.
#[derive(Clone, Copy)]
struct Question<'a> {
    view: BookView<'a>,
    notification: messages::Notification,
    row: setups::Authorisation,
    ghost fits: { Fits view.book view.held.now view.side1.now view.side2.now },
    ghost is_row: { row_of row ≡ row_at (rows_in view.book.setup) notification.authorisation },
}

impl Question<'_> {
    // A slot, by its entry, holds another identifier of the same account 1 and account 2.
    fn is_other(&self, entry: u32) -> bool
        ensures { result ≡ is_other (setting_in self.entry.now.view.book) (notification_of self.entry.now.notification) entry }
    {
        if entry == 0 {
            return false;
        }
        let own = ledger::slots::entry_of(
            self.notification.originator,
            self.notification.reference,
        );
        let row = self.view.book.setup.rows[state::origin_place(entry)];
        let origin = state::origin_row(self.view.book.setup.authorisations, entry, row);
        (entry != own)
            & ((origin.account1 == self.row.account1) & (origin.account2 == self.row.account2))
    }

    // The search for the first other identifier that overlaps: by slots, days and periods, left at the first open period that both state.
    fn is_overlapped(&self) -> bool
        ensures { result ≡ some_below (length self.entry.now.view.held.now) (overlaps (book_seen self.entry.now.view) (notification_of self.entry.now.notification)) }
    {
        let w1 = authorisations::writes_side1(self.row, self.notification.agent);
        let w2 = authorisations::writes_side2(self.row, self.notification.agent);
        let days = self.view.book.setup.days;
        for (s, entry) in self.view.held.iter().enumerate() {
            if self.is_other(*entry) {
                for d in 0..days {
                    let first = first_open(self.view.book, d);
                    let periods = periods_within(
                        self.view.book,
                        self.notification.first,
                        self.notification.last,
                        d,
                    );
                    for p in first..periods {
                        if states_at(self.view.side1, self.view.side2, w1, w2, days, s, d, p) {
                            return true;
                        }
                    }
                }
            }
        }
        false
    }

    // A slot states something on a side that is written, on the notification's first day or later.
    fn states_from(&self, s: usize) -> bool
        requires { s < length self.now.view.held.now }
        ensures { result ≡ some_below self.entry.now.view.book.setup.days (from_first (book_of self.entry.now.view.book [] self.entry.now.view.side1.now self.entry.now.view.side2.now) (notification_of self.entry.now.notification) s) }
    {
        let w1 = authorisations::writes_side1(self.row, self.notification.agent);
        let w2 = authorisations::writes_side2(self.row, self.notification.agent);
        let days = self.view.book.setup.days;
        for d in 0..days {
            let periods = periods_from(self.view.book, self.notification.first, d);
            for p in 0..periods {
                if states_at(self.view.side1, self.view.side2, w1, w2, days, s, d, p) {
                    return true;
                }
            }
        }
        false
    }

    // The identifier is held, and states something on the notification's first day or later.
    fn is_replacement(&self) -> bool
        ensures { result ≡ is_replacement (book_seen self.entry.now.view) (notification_of self.entry.now.notification) }
    {
        let slot = ledger::slots::slot_of(
            self.view.held,
            self.notification.originator,
            self.notification.reference,
        );
        if self.view.held.len() <= slot {
            return false;
        }
        self.states_from(slot)
    }
}

// On tables that fit: the kind.
fn kind_in(view: BookView<'_>, notification: messages::Notification) -> Kind
    requires { Fits view.book view.held.now view.side1.now view.side2.now }
    ensures { number_of_kind result ≡ kind_number (kind_of (book_seen view.entry) (notification_of notification)) }
{
    let row = state::row_of(view.book, notification.authorisation as u32);
    let question = Question {
        view,
        notification,
        row,
    };
    if question.is_replacement() {
        return Kind::Replacement;
    }
    if question.is_overlapped() {
        return Kind::Additional;
    }
    Kind::Initial
}

// The tables have a place for each slot, day and period, and there are few.
fn tables_fit(view: BookView<'_>) -> bool
    ensures { result ≡ fits view.entry.book (length view.entry.held.now) (length view.entry.side1.now) (length view.entry.side2.now) }
{
    let days = view.book.setup.days;
    if limits::MOST_DAYS < days {
        return false;
    }
    let slots = view.held.len();
    if limits::MOST_SLOTS < slots {
        return false;
    }
    let all = slots * days as usize * limits::PLACES_A_DAY;
    (view.side1.len() == all) & (view.side2.len() == all)
}

// The kind of a notification; none where the tables do not fit the book.
pub fn kind_of(view: BookView<'_>, n: messages::Notification) -> Option<Kind>
    ensures { number_found result ≡ kind_answer view.entry.book view.entry.held.now view.entry.side1.now view.entry.side2.now (notification_of n) }
{
    if !tables_fit(view) {
        return None;
    }
    Some(kind_in(view, n))
}
