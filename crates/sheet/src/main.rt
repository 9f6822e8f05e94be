// The sheet program (document 01, "The sheet program"): reads a setup and then messages from standard input, however many, and prints the sheet.
// What is printed is decided by the proved parts in crate sheet_parts; here is reading, lending and printing. Where standard input cannot be read
// or standard output not be written, nothing more is read or printed, and the program ends with that error. The tables are lent apart, since
// messages change them (crate book, `BookView`).
#![tactic(auto)]

ghost use Rattle.std.specs.Prelude.{true, ◌≡◌, ◌≤◌, length};

use book::{Book, BookView};
use sheet_parts::{beginning, input, totals, turns};
use std::io;
use std::io::{Read, Stdin, Stdout, Write};

// Standard input and output, and the first error that either gave, if one did. From then on nothing more is read or printed.
#[derive(Drop)]
struct Streams {
    stdin: Stdin,
    stdout: Stdout,
    so_far: io::Result<()>,
}

// Where the program stands between two turns: whether it goes on, how many messages it has told, how many bytes are kept, and the book.
#[derive(Clone, Copy)]
struct Progress {
    going: bool,
    seen: u64,
    kept: usize,
    book: Book,
}

// Where it stands after the last turn: whether it would go on, how many turns it has taken, how many messages it has told, and the book.
#[derive(Clone, Copy)]
struct Finished {
    going: bool,
    turns: u64,
    seen: u64,
    book: Book,
}

// The input is taken in parts of at most so many bytes. The longest setup that a head can name has 1,247.
const INPUT_BYTES: usize = 2048;

// What is printed is written in here first, a turn or an account's day at a time.
const OUTPUT_BYTES: usize = 65536;

// A side's table has places for 16 slots and the 15 days that a packed setup can name.
const SIDE_PLACES: usize = 12000;

// The three sorts of buffer. Each promises its length, since the theorem on the sheet that is printed (`program-prints-the-sheet`) is of just these.
fn input_buffer() -> [u8; INPUT_BYTES]
    ensures { 2048 ≡ length result }
{
    [0; INPUT_BYTES]
}

fn output_buffer() -> [u8; OUTPUT_BYTES]
    ensures { 65536 ≡ length result }
{
    [0; OUTPUT_BYTES]
}

fn side_table() -> [i32; SIDE_PLACES]
    ensures { 12000 ≡ length result }
{
    [0; SIDE_PLACES]
}

// Prints the front of the buffer. No line is written past its end.
fn print(streams: &mut Streams, out: &[u8], written: usize) {
    if written <= out.len() && streams.so_far.is_ok() {
        streams.so_far = streams.stdout.write_all(&out[..written]);
    }
}

// Reads some bytes to the front of the buffer, and answers how many: none where the input has ended, or nothing more is read.
fn read_some(streams: &mut Streams, bytes: &mut [u8]) -> usize
    ensures { result ≤ length bytes.new }
{
    if streams.so_far.is_err() {
        return 0;
    }
    match streams.stdin.read(bytes) {
        Ok(count) => count,
        Err(error) => {
            streams.so_far = Err(error);
            0
        }
    }
}

// Reads until the buffer is full or the input has ended, and answers how many bytes are at its front then. A `while`: each read says how much it
// gave.
fn read_full(streams: &mut Streams, bytes: &mut [u8]) -> usize
    ensures { result ≤ length bytes.new }
{
    let mut have = 0;
    while have < bytes.len() {
        let more = read_some(streams, &mut bytes[have..]);
        if more == 0 {
            break;
        }
        have += more;
    }
    have
}

// Reads on behind the bytes that are kept, and answers how many are at hand then: fewer than there is room for only where the input has ended.
fn read_on(streams: &mut Streams, bytes: &mut [u8], kept: usize) -> usize
    requires { kept ≤ length bytes.old }
    ensures { result ≤ length bytes.new }
{
    kept + read_full(streams, &mut bytes[kept..])
}

// One turn: more bytes, and the lines of the messages that they complete.
fn take_turn(
    streams: &mut Streams,
    before: Progress,
    bytes: &mut [u8],
    held: &mut [u32],
    side1: &mut [i32],
    side2: &mut [i32],
    answers: &mut [u8],
    places: &mut [u8],
    out: &mut [u8],
) -> Progress
    requires { before.kept ≤ length bytes.old }
    ensures { result.kept ≤ length bytes.new }
{
    let at_hand = read_on(streams, bytes, before.kept);
    let ended = at_hand < bytes.len();
    let told = turns::turn(
        before.book,
        before.seen,
        &bytes[..at_hand],
        ended,
        held,
        side1,
        side2,
        answers,
        places,
        out,
    );
    print(streams, out, told.written);
    Progress {
        going: told.going,
        seen: told.seen,
        kept: input::keep(bytes, told.used, at_hand),
        book: told.book,
    }
}

// The messages, turn by turn, until a turn does not go on. A proved loop has to end, and nothing says that the input does: so it may end too after as
// many turns as 64 bits count, which no run uses up. The promise names how many were taken, so they are counted.
fn print_messages(
    streams: &mut Streams,
    start: Progress,
    bytes: &mut [u8],
    held: &mut [u32],
    side1: &mut [i32],
    side2: &mut [i32],
    out: &mut [u8],
) -> Finished
    requires { start.kept ≤ length bytes.old }
    ensures { result.going ≡ true → result.turns ≡ 18446744073709551615 }
{
    // A message takes a byte or more, so there is room for the answer to each that is at hand, and for its place.
    let mut answers = input_buffer();
    let mut places = input_buffer();
    let mut progress = start;
    let mut turns: u64 = 0;
    while (turns < u64::MAX) & progress.going {
        progress = take_turn(
            streams,
            progress,
            bytes,
            held,
            side1,
            side2,
            &mut answers,
            &mut places,
            out,
        );
        turns += 1;
    }
    Finished {
        going: progress.going,
        turns,
        seen: progress.seen,
        book: progress.book,
    }
}

// The totals, rising by account, day and period.
fn print_totals(streams: &mut Streams, view: BookView<'_>, out: &mut [u8]) {
    for k in 0..totals::account_days(view.book) {
        let written = totals::put_account_day(view, k, out);
        print(streams, out, written);
    }
}

// What comes after the first line: the messages, the totals and the end.
fn print_rest(
    streams: &mut Streams,
    start: Progress,
    bytes: &mut [u8],
    held: &mut [u32],
    side1: &mut [i32],
    side2: &mut [i32],
    out: &mut [u8],
)
    requires { start.kept ≤ length bytes.old }
{
    let end = print_messages(streams, start, bytes, held, side1, side2, out);
    let view = BookView {
        book: end.book,
        held,
        side1,
        side2,
    };
    print_totals(streams, view, out);
    let written = sheet_lines::put_end_line(out, 0, end.seen);
    print(streams, out, written);
}

fn print_sheet(
    streams: &mut Streams,
    bytes: &mut [u8],
    have: usize,
    held: &mut [u32],
    side1: &mut [i32],
    side2: &mut [i32],
    out: &mut [u8],
)
    requires { have ≤ length bytes.old }
{
    let begun = beginning::begin(&bytes[..have], held, side1, side2, out);
    print(streams, out, begun.written);
    if let Ok(front) = begun.opened {
        let start = Progress {
            going: true,
            seen: 0,
            kept: input::keep(bytes, front.length, have),
            book: front.value,
        };
        print_rest(streams, start, bytes, held, side1, side2, out);
    }
}

fn main(rt: HostRuntime) -> io::Result<()> {
    let mut streams = Streams {
        stdin: rt.stdin(),
        stdout: rt.stdout(),
        so_far: Ok(()),
    };
    let mut bytes = input_buffer();
    let mut out = output_buffer();
    let mut held = [0u32; beginning::SLOTS];
    let mut table1 = side_table();
    let mut table2 = side_table();
    let have = read_full(&mut streams, &mut bytes);
    let lent = beginning::lent_for(&bytes[..have]);
    print_sheet(
        &mut streams,
        &mut bytes,
        have,
        &mut held,
        &mut table1[..lent],
        &mut table2[..lent],
        &mut out,
    );
    let Streams {
        stdin: _,
        stdout: _,
        so_far,
    } = streams;
    so_far
}
