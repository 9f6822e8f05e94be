// A notification: its refusals 1 to 14 in their order, its kind and slot, and what it writes (meaning, Notifications.antt and Messages.antt). The
// tables that a call changes are lent apart (crate book, `BookView`).
ghost use Rattle.std.specs.Prelude.{◌≡◌};
ghost use Rattle.meaning.specs.Messages.{notification};
ghost use Rattle.meaning.specs.Notifications.{notified};
ghost use Rattle.meaning.specs.Calls.{message};
ghost use Rattle.messages.specs.Structs.{notification_of};
ghost use Rattle.book.specs.Structs.{book_of, book_seen};
ghost use Rattle.calls.specs.Answers.{after_call, notified_of, notified_seen};

use crate::{Accepted, sound_book};
use book::{Book, BookView, state};
use limits::refusals::Refusal;
use message_checks::Fault;

// Its kind and slot, or what refuses it with the place, before anything is written.
pub fn notification_answer(view: BookView<'_>, n: messages::Notification) -> Result<Accepted, Fault>
    ensures { notified_seen result ≡ notified_of (notified (book_seen view.entry) (notification_of n)) }
{
    if !view.is_sound() {
        return Err(Refusal::NotSound.into());
    }
    let row = state::row_of(view.book, n.authorisation as u32);
    sound_book::judge_notification(view, n, row)
}

// The same, and the three tables with what an accepted notification makes of them; a refusal leaves them as they came.
pub fn notify(
    b: Book,
    n: messages::Notification,
    held: &mut [u32],
    side1: &mut [i32],
    side2: &mut [i32],
) -> Result<Accepted, Fault>
    ensures { let before = book_of b held.old side1.old side2.old in
        let call = message (notification (notification_of n)) in
        (notified_seen result ≡ notified_of (notified before (notification_of n))) × (held.new ≡ (after_call before call).ledger.held) × (side1.new ≡ (after_call before call).ledger.side1) × (side2.new ≡ (after_call before call).ledger.side2) }
{
    let view = BookView {
        book: b,
        held,
        side1,
        side2,
    };
    if !view.is_sound() {
        return Err(Refusal::NotSound.into());
    }
    sound_book::do_notification(b, n, held, side1, side2)
}
