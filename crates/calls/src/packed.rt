// A packed message done to a book, and a run of packed messages (meaning, PackedCalls.antt). The tables that a call changes are lent apart (crate
// book, `BookView`).
ghost use Rattle.std.specs.Prelude.{true, ◌≡◌, ◌<◌, Ok, min, length, IfSome};
ghost use Rattle.std.proofs.lemmas.List.Edits.{sets};
ghost use Rattle.meaning.specs.Soundness.{sound};
ghost use Rattle.meaning.specs.PackedCalls.{applied, stepped, answers_in, places_in, applied_all, run_answer, run_on};
ghost use Rattle.message_checks.specs.Checks.{outcome_told};
ghost use Rattle.book.specs.Structs.{book_of};
ghost use Rattle.calls.specs.Answers.{applied_of, applied_seen, stepped_of, stepped_seen, ran_of, ran_seen};

use crate::{Done, Run, sound_book};
use book::{Book, BookView};
use fields::AtFront;
use limits::refusals::Refusal;
use message_checks::Fault;

// What a step of a run did: what the message is told, how many bytes it takes, none where they are unreadable, and the book after it.
#[derive(Clone, Copy)]
struct Stepped {
    told: Result<(), Fault>,
    taken: Option<usize>,
    book: Book,
}

// A run's step on a book that is known to be sound. A message that is read takes its bytes, whatever the book answers.
fn step(b: Book, bytes: &[u8], held: &mut [u32], side1: &mut [i32], side2: &mut [i32]) -> Stepped
    requires { sound (book_of b held.old side1.old side2.old) ≡ true }
    ensures { let whole = stepped (book_of b held.old side1.old side2.old) bytes.now in
        (stepped_seen result ≡ stepped_of b whole) × (held.new ≡ whole.book.ledger.held) × (side1.new ≡ whole.book.ledger.side1) × (side2.new ≡ whole.book.ledger.side2) × IfSome result.taken (λ n. 0 < n) }
{
    match message_reading::read_message(bytes) {
        Err(refusal) => Stepped {
            told: Err(refusal.into()),
            taken: None,
            book: b,
        },
        Ok(read) => {
            let taken = Some(read.length);
            match sound_book::do_message(b, read.value, held, side1, side2) {
                Ok(done) => {
                    let book = done.book;
                    Stepped {
                        told: Ok(()),
                        taken,
                        book,
                    }
                }
                Err(fault) => Stepped {
                    told: Err(fault),
                    taken,
                    book: b,
                },
            }
        }
    }
}

// The message at the front of the bytes: refused by 1 before anything is read, then by reading, then by what the book answers. An accepted one
// gives its kind and slot, its length, and the book and the tables after it.
pub fn apply(
    b: Book,
    bytes: &[u8],
    held: &mut [u32],
    side1: &mut [i32],
    side2: &mut [i32],
) -> Result<AtFront<Done>, Fault>
    ensures { let whole = applied (book_of b held.old side1.old side2.old) bytes.now in
        (applied_seen b result ≡ applied_of b whole) × (held.new ≡ whole.book.ledger.held) × (side1.new ≡ whole.book.ledger.side1) × (side2.new ≡ whole.book.ledger.side2) }
{
    let view = BookView {
        book: b,
        held,
        side1,
        side2,
    };
    let known = view.is_sound();
    if !known {
        return Err(Refusal::NotSound.into());
    }
    let read = message_reading::read_message(bytes)?;
    let done = sound_book::do_message(b, read.value, held, side1, side2)?;
    Ok(AtFront {
        length: read.length,
        value: done,
    })
}

// The answer number and the place that a message is told; both 0 where it is done.
fn answer_told(told: Result<(), Fault>) -> u8
    ensures { result ≡ (outcome_told told).answer }
{
    match told {
        Ok(()) => 0,
        Err(fault) => fault.refusal.into(),
    }
}

fn place_told(told: Result<(), Fault>) -> u8
    ensures { result ≡ (outcome_told told).place }
{
    match told {
        Ok(()) => 0,
        Err(fault) => fault.place,
    }
}

// A run on a book that is known to be sound: each accepted message keeps it so. A `while`, since each message says
// itself where the next begins. Answers and places are lent apart, as C has them.
fn run_known(
    b: Book,
    bytes: &[u8],
    held: &mut [u32],
    side1: &mut [i32],
    side2: &mut [i32],
    answers: &mut [u8],
    places: &mut [u8],
) -> Run
    requires { sound (book_of b held.old side1.old side2.old) ≡ true }
    ensures { let whole = applied_all (min (length answers.old) (length places.old)) (book_of b held.old side1.old side2.old) bytes.now in
        (ran_seen b (Ok result) ≡ ran_of b 0 whole) × (held.new ≡ whole.book.ledger.held) × (side1.new ≡ whole.book.ledger.side1) × (side2.new ≡ whole.book.ledger.side2) × (answers.new ≡ sets answers.old 0 (answers_in whole.outcomes)) × (places.new ≡ sets places.old 0 (places_in whole.outcomes)) }
{
    let mut run = Run {
        done: 0,
        used: 0,
        book: b,
    };
    while (run.done < answers.len()) & (run.done < places.len()) & (run.used < bytes.len()) {
        let one = step(run.book, &bytes[run.used..], held, side1, side2);
        answers[run.done] = answer_told(one.told);
        places[run.done] = place_told(one.told);
        run.done += 1;
        run.book = one.book;
        let Some(taken) = one.taken else {
            return run;
        };
        run.used += taken;
    }
    run
}

// A run of packed messages, one after the other, until the bytes end, one is unreadable or the answers or the places beside them have no more
// room. Tables that are no sound book are refused by 1, and nothing is done.
pub fn apply_all(
    b: Book,
    bytes: &[u8],
    held: &mut [u32],
    side1: &mut [i32],
    side2: &mut [i32],
    answers: &mut [u8],
    places: &mut [u8],
) -> Result<Run, Refusal>
    ensures { let before = book_of b held.old side1.old side2.old in
        let whole = run_on (min (length answers.old) (length places.old)) before bytes.now in
        (ran_seen b result ≡ ran_of b (run_answer before) whole) × (held.new ≡ whole.book.ledger.held) × (side1.new ≡ whole.book.ledger.side1) × (side2.new ≡ whole.book.ledger.side2) × (answers.new ≡ sets answers.old 0 (answers_in whole.outcomes)) × (places.new ≡ sets places.old 0 (places_in whole.outcomes)) }
{
    let view = BookView {
        book: b,
        held,
        side1,
        side2,
    };
    if !view.is_sound() {
        return Err(Refusal::NotSound);
    }
    Ok(run_known(b, bytes, held, side1, side2, answers, places))
}
