// Document 02, A5, "Volumes from a spreadsheet": what a file is and what it holds stand in specs/ as definitions, the theorems about them in proofs/. The
// struct here is what a file holds, by value.
#![tactic(auto)]

// Entries past `count` are no part of it: C is given the array and the count beside it, and fills them.
#[repr(C)]
#[derive(Clone, Copy)]
pub struct Spreadsheet {
    pub count: u8,
    pub entries: [messages::Entry; limits::MOST_ENTRIES_WIDE],
}
