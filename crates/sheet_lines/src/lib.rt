// The lines that the sheet program prints (document 01, "The sheet program"), as bytes in a lent buffer. The buffer and the place
// are two parameters, as in decimals.
#![tactic(auto)]

ghost use Rattle.std.specs.Prelude.{◌≡◌, ◌+◌, ◌≤◌, length};
ghost use Rattle.meaning.specs.Decimals.{decimal, signed};
ghost use Rattle.meaning.specs.SheetLines.{field, fields, beginning, line, sheet_line, carries_place, message_line, message_lines, total_line, end_line, setup_line};
ghost use Rattle.decimals.specs.Texts.{Written};
ghost use Rattle.sheet_lines.specs.Outcomes.{outcomes_of};
ghost use Rattle.sheet_lines.specs.Places.{most_bytes, Puts, PutsAll};

use limits::refusals::Refusal;

// No line is longer, so a line is written only where so many bytes are free.
const MOST_BYTES: usize = 64;

// Writes a single space and a number.
fn put_field(out: &mut [u8], at: usize, number: u64) -> usize
    requires { at + length (field (decimal number)) ≤ length out.old }
    ensures { Written out.old at (field (decimal number)) out.new result }
{
    let start = decimals::put_word(out, at, b" ");
    decimals::put_decimal(out, start, number)
}

// Writes a single space and a number that may be below zero.
fn put_signed_field(out: &mut [u8], at: usize, number: i64) -> usize
    requires { at + length (field (signed number)) ≤ length out.old }
    ensures { Written out.old at (field (signed number)) out.new result }
{
    if number < 0 {
        let start = decimals::put_word(out, at, b" -");
        return decimals::put_decimal(out, start, decimals::size(number));
    }
    put_field(out, at, decimals::size(number))
}

// Writes numbers, each after a single space.
fn put_fields(out: &mut [u8], at: usize, numbers: &[u64]) -> usize
    requires { at + length (fields numbers.now) ≤ length out.old }
    ensures { Written out.old at (fields numbers.now) out.new result }
{
    let mut place = at;
    for number in numbers {
        place = put_field(out, place, *number);
    }
    place
}

// Writes a word and numbers, with which every line begins.
fn put_beginning(out: &mut [u8], at: usize, word: &[u8], numbers: &[u64]) -> usize
    requires { at + length (beginning word.now numbers.now) ≤ length out.old }
    ensures { Written out.old at (beginning word.now numbers.now) out.new result }
{
    let after_word = decimals::put_word(out, at, word);
    put_fields(out, after_word, numbers)
}

// Writes a line of a word and numbers where there is room, and answers the place after it.
fn put_line(out: &mut [u8], at: usize, word: &[u8], numbers: &[u64]) -> usize
    requires { length (line word.now numbers.now) ≤ most_bytes }
    ensures { Puts (line word.now numbers.now) out.old at out.new result }
{
    if !decimals::has_room(out.len(), at, MOST_BYTES) {
        return at;
    }
    let after_numbers = put_beginning(out, at, word, numbers);
    decimals::put_word(out, after_numbers, b"\n")
}

// "sheet FIRST DAYS ACCOUNTS": the first line.
pub fn put_sheet_line(out: &mut [u8], at: usize, first: u16, days: u8, accounts: u8) -> usize
    ensures { Puts (sheet_line first days accounts) out.old at out.new result }
{
    let numbers = [first as u64, days as u64, accounts as u64];
    put_line(out, at, b"sheet", &numbers)
}

// Whether a message's line has a third number, the place of the entry at fault (02, A3).
fn carries_place(answer: u8) -> bool
    ensures { result ≡ carries_place answer }
{
    answer == Refusal::PeriodWrong.into() || answer == Refusal::VolumeWrong.into()
}

// "m NUMBER ANSWER": a message's number, which counts from 1, and its answer; the place, counted from 0, stands behind an answer that carries one.
pub fn put_message_line(out: &mut [u8], at: usize, number: u64, answer: u8, place: u8) -> usize
    ensures { Puts (message_line number (record { answer = answer; place = place })) out.old at out.new result }
{
    if carries_place(answer) {
        return put_line(out, at, b"m", &[number, answer as u64, place as u64]);
    }
    put_line(out, at, b"m", &[number, answer as u64])
}

// The lines of messages one after the other, the first of which has this number, as long as there is room: an answer and the place beside it for each.
pub fn put_message_lines(
    out: &mut [u8],
    at: usize,
    first: u64,
    answers: &[u8],
    places: &[u8],
) -> usize
    ensures { PutsAll (message_lines first (outcomes_of answers.now places.now)) out.old at out.new result }
{
    let mut next = at;
    let mut number = first;
    for (answer, place) in answers.iter().zip(places) {
        next = put_message_line(out, next, number, *answer, *place);
        number = number.wrapping_add(1);
    }
    next
}

// "t ACCOUNT DAY PERIOD KWH": a total that is not zero.
pub fn put_total_line(
    out: &mut [u8],
    at: usize,
    account: u8,
    day: u16,
    period: u8,
    kwh: i64,
) -> usize
    ensures { Puts (total_line account day period kwh) out.old at out.new result }
{
    if !decimals::has_room(out.len(), at, MOST_BYTES) {
        return at;
    }
    let numbers = [account as u64, day as u64, period as u64];
    let after_numbers = put_beginning(out, at, b"t", &numbers);
    let after_kwh = put_signed_field(out, after_numbers, kwh);
    decimals::put_word(out, after_kwh, b"\n")
}

// "end COUNT": the messages seen.
pub fn put_end_line(out: &mut [u8], at: usize, count: u64) -> usize
    ensures { Puts (end_line count) out.old at out.new result }
{
    put_line(out, at, b"end", &[count])
}

// "setup NUMBER": a refused setup, and why.
pub fn put_setup_line(out: &mut [u8], at: usize, number: u8) -> usize
    ensures { Puts (setup_line number) out.old at out.new result }
{
    put_line(out, at, b"setup", &[number as u64])
}
