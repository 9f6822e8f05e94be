// What a book that is known to be sound does with a message: the private core of every call. The tests of soundness are its callers'.
// That the book is sound is asked by each function here: a type that held the fact would hold the tables too, which are lent as `&mut` (crate book,
// `BookView`).
ghost use Rattle.std.specs.Prelude.{true, ◌≡◌, None};
ghost use Rattle.meaning.specs.Messages.{notification, nullification};
ghost use Rattle.meaning.specs.Authorisations.{row_at};
ghost use Rattle.meaning.specs.Soundness.{sound};
ghost use Rattle.meaning.specs.Notifications.{notified};
ghost use Rattle.meaning.specs.Calls.{message, refusal};
ghost use Rattle.messages.specs.Structs.{notification_of, nullification_of, message_of};
ghost use Rattle.setups.specs.Structs.{row_of};
ghost use Rattle.limits.specs.Refusals.{answer_of};
ghost use Rattle.book.specs.Structs.{rows_in, book_of, book_seen};
ghost use Rattle.calls.specs.Answers.{after_call, after_message, notified_of, notified_seen, message_done, done_seen};

use crate::{Accepted, Done, gates};
use book::{Book, BookView, state};
use limits::refusals::Refusal;
use message_checks::Fault;
use messages::layouts;
use setups::authorisations;

// Its kind and slot, before anything is written. The row of its authorisation is handed over.
pub(crate) fn judge_notification(
    view: BookView<'_>,
    n: messages::Notification,
    row: setups::Authorisation,
) -> Result<Accepted, Fault>
    requires { (sound (book_seen view) ≡ true) × (row_of row ≡ row_at (rows_in view.book.setup) n.authorisation) }
    ensures { notified_seen result ≡ notified_of (notified (book_seen view.entry) (notification_of n)) }
{
    message_checks::notifications::checks_outcome(view.book, n)?;
    let kind = notification_kinds::kind_of(view, n).unwrap();
    let slot = ledger::slots::slot_for(view.held, n.originator, n.reference);
    message_checks::notifications::late_refusal(kind.into(), row.amendment, slot, view.held.len())?;
    Ok(Accepted {
        kind,
        slot: slot as u16,
    })
}

// The same, and the three tables with what an accepted notification makes of them.
pub(crate) fn do_notification(
    b: Book,
    n: messages::Notification,
    held: &mut [u32],
    side1: &mut [i32],
    side2: &mut [i32],
) -> Result<Accepted, Fault>
    requires { sound (book_of b held.old side1.old side2.old) ≡ true }
    ensures { let before = book_of b held.old side1.old side2.old in
        let call = message (notification (notification_of n)) in
        (notified_seen result ≡ notified_of (notified before (notification_of n))) × (held.new ≡ (after_call before call).ledger.held) × (side1.new ≡ (after_call before call).ledger.side1) × (side2.new ≡ (after_call before call).ledger.side2) }
{
    let row = state::row_of(b, n.authorisation as u32);
    let view = BookView {
        book: b,
        held,
        side1,
        side2,
    };
    let accepted = judge_notification(view, n, row)?;
    let slot = accepted.slot as usize;
    let c = state::clock_of(b);
    held[slot] = ledger::slots::entry_of(n.originator, n.reference);
    message_effects::write_slot(
        side1,
        side2,
        authorisations::writes_side1(row, n.agent),
        authorisations::writes_side2(row, n.agent),
        c,
        slot as u8,
        n,
    );
    Ok(accepted)
}

// Both tables with what an accepted nullification makes of them.
pub(crate) fn do_nullification(
    b: Book,
    x: messages::Nullification,
    held: &[u32],
    side1: &mut [i32],
    side2: &mut [i32],
) -> Result<(), Refusal>
    requires { sound (book_of b held.now side1.old side2.old) ≡ true }
    ensures { let before = book_of b held.now side1.old side2.old in
        let call = message (nullification (nullification_of x)) in
        (answer_of result ≡ refusal before call) × (side1.new ≡ (after_call before call).ledger.side1) × (side2.new ≡ (after_call before call).ledger.side2) }
{
    message_checks::nullifications::judge_nullification(b, x)?;
    message_effects::blank_pair(side1, held, b, x.account, x.other, x.first);
    message_effects::blank_pair(side2, held, b, x.account, x.other, x.first);
    Ok(())
}

// What a message that is no notification did.
fn untold(book: Book) -> Done
    ensures { result ≡ record { notification = None; book = book } }
{
    Done {
        notification: None,
        book,
    }
}

// A message by its kind. A fourth kind is refused by its own number, and so are those above it; a reader gives none.
pub(crate) fn do_message(
    b: Book,
    m: messages::Message,
    held: &mut [u32],
    side1: &mut [i32],
    side2: &mut [i32],
) -> Result<Done, Fault>
    requires { sound (book_of b held.old side1.old side2.old) ≡ true }
    ensures { let before = book_of b held.old side1.old side2.old in
        let left = (after_message before (message_of m)).ledger in
        (done_seen b result ≡ message_done b before (message_of m)) × (held.new ≡ left.held) × (side1.new ≡ left.side1) × (side2.new ≡ left.side2) }
{
    let kind = m.kind;
    match kind {
        0 => {
            let book = gates::close_next(b)?;
            Ok(untold(book))
        }
        1 => {
            let accepted = do_notification(b, m.notification, held, side1, side2)?;
            Ok(Done {
                notification: Some(accepted),
                book: b,
            })
        }
        2 => {
            do_nullification(b, m.nullification, held, side1, side2)?;
            Ok(untold(b))
        }
        _ => {
            layouts::kind_refusal(kind)?;
            Ok(untold(b))
        }
    }
}
