// What C is given of each outcome. A book that a refusal leaves as it came is handed over.
ghost use Rattle.std.specs.Prelude.{◌≡◌};
ghost use Rattle.calls.specs.Answers.{kind_told, slot_told, gated_seen, notified_seen, applied_seen, ran_seen};

use crate::{Accepted, Applied, AppliedAll, Done, Gated, Notified, Run};
use book::Book;
use fields::AtFront;
use limits::kinds::number_found;
use limits::refusals::Refusal;
use message_checks::Fault;

impl Gated {
    pub fn of(before: Book, outcome: Result<Book, Refusal>) -> Gated
        ensures { result ≡ gated_seen before outcome }
    {
        match outcome {
            Ok(book) => Gated { answer: 0, book },
            Err(refusal) => Gated {
                answer: refusal.into(),
                book: before,
            },
        }
    }
}

impl From<Result<Accepted, Fault>> for Notified {
    ghost from_gives = { λ outcome given. given ≡ notified_seen outcome };

    fn from(outcome: Result<Accepted, Fault>) -> Notified {
        match outcome {
            Ok(accepted) => Notified {
                answer: 0,
                kind: accepted.kind.into(),
                slot: accepted.slot,
                place: 0,
            },
            Err(fault) => Notified {
                answer: fault.refusal.into(),
                kind: 0,
                slot: 0,
                place: fault.place,
            },
        }
    }
}

// The number of the kind, and the slot, of an accepted notification; 0 of any other message.
fn kind_told(notification: Option<Accepted>) -> u8
    ensures { result ≡ kind_told notification }
{
    number_found(notification.map(|accepted| accepted.kind))
}

fn slot_told(notification: Option<Accepted>) -> u16
    ensures { result ≡ slot_told notification }
{
    match notification {
        Some(accepted) => accepted.slot,
        None => 0,
    }
}

impl Applied {
    pub fn of(before: Book, outcome: Result<AtFront<Done>, Fault>) -> Applied
        ensures { result ≡ applied_seen before outcome }
    {
        match outcome {
            Ok(front) => Applied {
                answer: 0,
                kind: kind_told(front.value.notification),
                slot: slot_told(front.value.notification),
                place: 0,
                length: front.length,
                book: front.value.book,
            },
            Err(fault) => Applied {
                answer: fault.refusal.into(),
                kind: 0,
                slot: 0,
                place: fault.place,
                length: 0,
                book: before,
            },
        }
    }
}

impl AppliedAll {
    pub fn of(before: Book, outcome: Result<Run, Refusal>) -> AppliedAll
        ensures { result ≡ ran_seen before outcome }
    {
        match outcome {
            Ok(run) => AppliedAll {
                answer: 0,
                done: run.done,
                used: run.used,
                book: run.book,
            },
            Err(refusal) => AppliedAll {
                answer: refusal.into(),
                done: 0,
                used: 0,
                book: before,
            },
        }
    }
}
