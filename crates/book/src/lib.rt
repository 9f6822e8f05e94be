// A book by value beside its lent tables: `held`, an entry a slot (0 unheld, else one more than originator * 65,536 + reference), and a table
// of volumes for each side, slots times days times 50.
#![tactic(auto)]

pub mod state; // state.rt: the clock and the authorisations of a book
pub mod soundness; // soundness.rt: whether a book and its lent tables are sound
pub mod opening; // opening.rt: a setup and three lent tables to a book

// The setup, and the number of gates closed.
#[repr(C)]
#[derive(Clone, Copy)]
pub struct Book {
    pub setup: setups::Setup,
    pub closed: u16,
}

// A book beside its lent tables, as every question of it is asked. Where a call changes the tables, they are lent apart: a struct of `&mut`s needs
// a clause for each that it is still the same loan.
#[derive(Clone, Copy)]
pub struct BookView<'a> {
    pub book: Book,
    pub held: &'a [u32],
    pub side1: &'a [i32],
    pub side2: &'a [i32],
}

// What C is given. With a refusal the book is all zero.
#[repr(C)]
#[derive(Clone, Copy)]
pub struct Opened {
    pub answer: u8,
    pub book: Book,
}

// What C is given. The length is that of the packed setup. With a refusal it is 0, and the book all zero.
#[repr(C)]
#[derive(Clone, Copy)]
pub struct OpenedPacked {
    pub answer: u8,
    pub length: usize,
    pub book: Book,
}
