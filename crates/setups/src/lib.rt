// Setups by value, their rules, and how long they are when packed (meaning, Books.antt and PackedSetups.antt).
#![tactic(auto)]

pub mod authorisations; // authorisations.rt: who writes which side
pub mod rules; // rules.rt: what can be wrong with a setup
pub mod layouts; // layouts.rt: the bits and bytes that it takes

// An authorisation. `amendment` is its type: 0 both, 1 replacement, 2 additional; C fills it with any number, so it is no enum. A last day of 65,535 is evergreen.
#[repr(C)]
#[derive(Clone, Copy)]
pub struct Authorisation {
    pub agent1: u8,
    pub agent2: u8,
    pub account1: u8,
    pub account2: u8,
    pub key: u16,
    pub first: u16,
    pub last: u16,
    pub amendment: u8,
}

impl Authorisation {
    // Every field zero: what stands past the rows of a setup, and what a refusal gives.
    pub const NONE: Authorisation = Authorisation {
        agent1: 0,
        agent2: 0,
        account1: 0,
        account2: 0,
        key: 0,
        first: 0,
        last: 0,
        amendment: 0,
    };
}

// The first `days` codes (0, 1, 2 for 46, 48, 50 periods) and the first `authorisations` rows are its own; what follows them is no part of
// it. C fills the arrays and the numbers beside them.
#[repr(C)]
#[derive(Clone, Copy)]
pub struct Setup {
    pub first: u16,
    pub days: u8,
    pub accounts: u8,
    pub authorisations: u8,
    pub codes: [u8; limits::MOST_DAYS_WIDE],
    pub rows: [Authorisation; limits::MOST_AUTHORISATIONS_WIDE],
}

impl Setup {
    // Every field zero: what a refusal gives.
    pub const NONE: Setup = Setup {
        first: 0,
        days: 0,
        accounts: 0,
        authorisations: 0,
        codes: [0; limits::MOST_DAYS_WIDE],
        rows: [Authorisation::NONE; limits::MOST_AUTHORISATIONS_WIDE],
    };
}
