// The calls on a book by value and its lent tables (meaning, Calls.antt and PackedCalls.antt).
#![tactic(auto)]

pub mod gates; // gates.rt: closing the next gate
pub mod notifications; // notifications.rt: a notification's answer, and what it writes
pub mod nullifications; // nullifications.rt: blanking a pair
pub mod packed; // packed.rt: a packed message, and a run of packed messages
pub mod given; // given.rt: what C is given of each outcome
mod sound_book; // sound_book.rt: what a book that is known to be sound does with a message

// An accepted notification.
#[derive(Clone, Copy)]
pub struct Accepted {
    pub kind: limits::kinds::Kind,
    pub slot: u16,
}

// What an accepted message did: what is told of it where it is a notification, and the book after it.
#[derive(Clone, Copy)]
pub struct Done {
    pub notification: Option<Accepted>,
    pub book: book::Book,
}

// A run of packed messages: how many were told their answer and place, how many bytes they took, and the book after them.
#[derive(Clone, Copy)]
pub struct Run {
    pub done: usize,
    pub used: usize,
    pub book: book::Book,
}

// What C is given, here and below. With a refusal the book is as it came.
#[repr(C)]
#[derive(Clone, Copy)]
pub struct Gated {
    pub answer: u8,
    pub book: book::Book,
}

// The kind is 1 initial, 2 replacement, 3 additional. With a refusal kind and slot are 0. The place is that of the first entry at fault, counted from
// 0, with 10 and 11, and 0 with every other answer (02, A3).
#[repr(C)]
#[derive(Clone, Copy)]
pub struct Notified {
    pub answer: u8,
    pub kind: u8,
    pub slot: u16,
    pub place: u8,
}

// Kind and slot are those of an accepted notification, 0 of any other message; the length is that of the message. With a refusal the three are 0,
// and the book is as it came; the place is as in Notified.
#[repr(C)]
#[derive(Clone, Copy)]
pub struct Applied {
    pub answer: u8,
    pub kind: u8,
    pub slot: u16,
    pub place: u8,
    pub length: usize,
    pub book: book::Book,
}

// How many answers were given, each with its place, how many bytes used, and the book after. With a refusal the counts are 0 and the book is as it
// came.
#[repr(C)]
#[derive(Clone, Copy)]
pub struct AppliedAll {
    pub answer: u8,
    pub done: usize,
    pub used: usize,
    pub book: book::Book,
}
