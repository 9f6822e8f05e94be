// A book from C: a packed setup, opening, packed messages, and what the book shows. Each export takes its arguments apart, narrows the numbers that a
// caller may get wrong, calls, and gives C the struct or the number of the outcome; the promise is that of the function it calls, at the caller's own
// numbers. include/ghendufika.h declares them.
ghost use Rattle.std.specs.Prelude.{◌≡◌, min, length};
ghost use Rattle.std.proofs.lemmas.List.Edits.{sets};
ghost use Rattle.words.specs.Rules.{answer};
ghost use Rattle.meaning.specs.Books.{opening_rules};
ghost use Rattle.meaning.specs.Messages.{notification, nullification};
ghost use Rattle.meaning.specs.Soundness.{sound};
ghost use Rattle.meaning.specs.Notifications.{notified};
ghost use Rattle.meaning.specs.Calls.{message, gate_rules, refusal};
ghost use Rattle.meaning.specs.PackedSetups.{read_setup};
ghost use Rattle.meaning.specs.PackedCalls.{applied, answers_in, places_in, run_answer, run_on};
ghost use Rattle.meaning.specs.Rows.{row_rules};
ghost use Rattle.setups.specs.Structs.{setup_of};
ghost use Rattle.setup_reading.specs.Structs.{setup_read};
ghost use Rattle.book.specs.Structs.{book_of};
ghost use Rattle.messages.specs.Structs.{notification_of};
ghost use Rattle.book.specs.Answers.{opened, held_opened, side_opened};
ghost use Rattle.calls.specs.Answers.{after_call, gated, notified_of, applied_of, ran_of};
ghost use Rattle.position.specs.Totals.{totalled, day_total_rules, day_totals, figured};
ghost use Rattle.bar.specs.Figures.{case_of, first_of, second_of};
ghost use Rattle.marks.specs.Marks.{day_mark_rules, day_marked};
ghost use Rattle.viewer.specs.Asked.{named};

use crate::asked;
use book::Book;
use limits::refusals::answer_of;

#[unsafe(no_mangle)]
pub extern "C" fn ghendufika_read_setup(
    bytes: &[u8],
    slots: usize,
    lent1: usize,
    lent2: usize,
) -> setup_reading::SetupRead
    ensures { result ≡ setup_read (read_setup bytes.now slots lent1 lent2) }
{
    setup_reading::read_setup(bytes, slots, lent1, lent2).into()
}

#[unsafe(no_mangle)]
pub extern "C" fn ghendufika_open(
    s: setups::Setup,
    held: &mut [u32],
    side1: &mut [i32],
    side2: &mut [i32],
) -> book::Opened
    ensures { let a = answer (opening_rules (setup_of s) (length held.old) (length side1.old) (length side2.old)) in
        (result ≡ opened s a) × (held.new ≡ held_opened a held.old) × (side1.new ≡ side_opened a side1.old) × (side2.new ≡ side_opened a side2.old) }
{
    book::opening::open(s, held, side1, side2).into()
}

#[unsafe(no_mangle)]
pub extern "C" fn ghendufika_is_sound(b: Book, held: &[u32], side1: &[i32], side2: &[i32]) -> bool
    ensures { result ≡ sound (book_of b held.now side1.now side2.now) }
{
    book::soundness::is_sound(b, held, side1, side2)
}

#[unsafe(no_mangle)]
pub extern "C" fn ghendufika_close_gate(
    b: Book,
    held: &[u32],
    side1: &[i32],
    side2: &[i32],
) -> calls::Gated
    ensures { result ≡ gated b (answer (gate_rules (book_of b held.now side1.now side2.now))) }
{
    let view = asked::seen(b, held, side1, side2);
    calls::Gated::of(b, calls::gates::close_gate(view))
}

#[unsafe(no_mangle)]
pub extern "C" fn ghendufika_notify(
    b: Book,
    n: messages::Notification,
    held: &mut [u32],
    side1: &mut [i32],
    side2: &mut [i32],
) -> calls::Notified
    ensures { let before = book_of b held.old side1.old side2.old in
        let call = message (notification (notification_of n)) in
        (result ≡ notified_of (notified before (notification_of n))) × (held.new ≡ (after_call before call).ledger.held) × (side1.new ≡ (after_call before call).ledger.side1) × (side2.new ≡ (after_call before call).ledger.side2) }
{
    calls::notifications::notify(b, n, held, side1, side2).into()
}

#[unsafe(no_mangle)]
pub extern "C" fn ghendufika_nullify(
    b: Book,
    account: u32,
    other: u32,
    first: u32,
    held: &[u32],
    side1: &mut [i32],
    side2: &mut [i32],
) -> u8
    ensures { let before = book_of b held.now side1.old side2.old in
        let call = message (nullification (record { account = account; other = other; first = first })) in
        (result ≡ refusal before call) × (side1.new ≡ (after_call before call).ledger.side1) × (side2.new ≡ (after_call before call).ledger.side2) }
{
    let x = messages::Nullification {
        account: asked::at_most_255(account),
        other: asked::at_most_255(other),
        first: asked::at_most_65535(first),
    };
    answer_of(calls::nullifications::nullify(b, x, held, side1, side2))
}

#[unsafe(no_mangle)]
pub extern "C" fn ghendufika_apply(
    b: Book,
    bytes: &[u8],
    held: &mut [u32],
    side1: &mut [i32],
    side2: &mut [i32],
) -> calls::Applied
    ensures { let whole = applied (book_of b held.old side1.old side2.old) bytes.now in
        (result ≡ applied_of b whole) × (held.new ≡ whole.book.ledger.held) × (side1.new ≡ whole.book.ledger.side1) × (side2.new ≡ whole.book.ledger.side2) }
{
    let outcome = calls::packed::apply(b, bytes, held, side1, side2);
    calls::Applied::of(b, outcome)
}

#[unsafe(no_mangle)]
pub extern "C" fn ghendufika_apply_all(
    b: Book,
    bytes: &[u8],
    held: &mut [u32],
    side1: &mut [i32],
    side2: &mut [i32],
    answers: &mut [u8],
    places: &mut [u8],
) -> calls::AppliedAll
    ensures { let before = book_of b held.old side1.old side2.old in
        let whole = run_on (min (length answers.old) (length places.old)) before bytes.now in
        (result ≡ ran_of b (run_answer before) whole) × (held.new ≡ whole.book.ledger.held) × (side1.new ≡ whole.book.ledger.side1) × (side2.new ≡ whole.book.ledger.side2) × (answers.new ≡ sets answers.old 0 (answers_in whole.outcomes)) × (places.new ≡ sets places.old 0 (places_in whole.outcomes)) }
{
    let outcome = calls::packed::apply_all(b, bytes, held, side1, side2, answers, places);
    calls::AppliedAll::of(b, outcome)
}

#[unsafe(no_mangle)]
pub extern "C" fn ghendufika_total(
    b: Book,
    held: &[u32],
    side1: &[i32],
    side2: &[i32],
    account: u32,
    day: u32,
    period: u32,
) -> position::Totalled
    ensures { result ≡ totalled (book_of b held.now side1.now side2.now) account day period }
{
    let account = asked::at_most_255(account);
    let day = asked::at_most_65535(day);
    let period = asked::at_most_255(period);
    let view = asked::seen(b, held, side1, side2);
    position::totals::total(view, account, day, period).into()
}

#[unsafe(no_mangle)]
pub extern "C" fn ghendufika_day_totals(
    b: Book,
    held: &[u32],
    side1: &[i32],
    side2: &[i32],
    account: u32,
    day: u32,
    out: &mut [i64],
) -> u8
    ensures { let before = book_of b held.now side1.now side2.now in
        (result ≡ answer (day_total_rules before account day (length out.old))) × (out.new ≡ day_totals before account day out.old) }
{
    let account = asked::at_most_255(account);
    let day = asked::at_most_65535(day);
    let view = asked::seen(b, held, side1, side2);
    answer_of(position::totals::day_totals(view, account, day, out))
}

#[unsafe(no_mangle)]
pub extern "C" fn ghendufika_figures(
    b: Book,
    held: &[u32],
    side1: &[i32],
    side2: &[i32],
    account: u32,
    day: u32,
) -> position::Figured
    ensures { result ≡ figured (book_of b held.now side1.now side2.now) account day }
{
    let account = asked::at_most_255(account);
    let day = asked::at_most_65535(day);
    let view = asked::seen(b, held, side1, side2);
    position::day_figures::figures(view, account, day).into()
}

#[unsafe(no_mangle)]
pub extern "C" fn ghendufika_row_refusal(
    b: Book,
    held: &[u32],
    side1: &[i32],
    side2: &[i32],
    originator: u32,
    reference: u32,
    day: u32,
    side: u32,
) -> u8
    ensures { result ≡ answer (row_rules (book_of b held.now side1.now side2.now) (named originator reference) day side) }
{
    let originator = asked::originator_named(originator, reference);
    let reference = asked::at_most_65535(reference);
    let day = asked::at_most_65535(day);
    let side = asked::at_most_255(side);
    let view = asked::seen(b, held, side1, side2);
    answer_of(marks::rows::row_refusal(view, originator, reference, day, side))
}

#[unsafe(no_mangle)]
pub extern "C" fn ghendufika_day_marks(
    b: Book,
    held: &[u32],
    side1: &[i32],
    side2: &[i32],
    originator: u32,
    reference: u32,
    account: u32,
    day: u32,
    cases: &mut [u8],
    firsts: &mut [f64],
    seconds: &mut [f64],
) -> u8
    ensures { let before = book_of b held.now side1.now side2.now in
        let i = named originator reference in
        let a = answer (day_mark_rules before i account day (length cases.old) (length firsts.old) (length seconds.old)) in
        (result ≡ a) × (cases.new ≡ day_marked case_of before i account day a cases.old) × (firsts.new ≡ day_marked first_of before i account day a firsts.old) × (seconds.new ≡ day_marked second_of before i account day a seconds.old) }
{
    let originator = asked::originator_named(originator, reference);
    let reference = asked::at_most_65535(reference);
    let account = asked::at_most_255(account);
    let day = asked::at_most_65535(day);
    let view = asked::seen(b, held, side1, side2);
    answer_of(marks::periods::day_marks(
        view, originator, reference, account, day, cases, firsts, seconds,
    ))
}
