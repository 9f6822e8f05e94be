// The parts of the sheet program (document 01, "The sheet program"): each decides which lines there are, with which numbers, and writes them into
// a lent buffer. The program only reads, lends and prints.
#![tactic(auto)]

pub mod beginning; // beginning.rt: the setup, and the first line
pub mod input; // input.rt: what is left of the bytes at hand
pub mod turns; // turns.rt: the messages at hand, and their lines
pub mod totals; // totals.rt: the lines of an account's day

use book::Book;
use fields::AtFront;
use limits::refusals::Refusal;

// The book and how many bytes its setup took, or why it is refused; and how many bytes were written.
#[derive(Clone, Copy)]
pub struct Begun {
    pub opened: Result<AtFront<Book>, Refusal>,
    pub written: usize,
}

// Whether more messages may come, how many were told so far, how many bytes these ones took and how many were written, and the book after them.
#[derive(Clone, Copy)]
pub struct Turned {
    pub going: bool,
    pub seen: u64,
    pub used: usize,
    pub written: usize,
    pub book: Book,
}
