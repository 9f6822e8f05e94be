// Messages by value, and how long they are when packed (meaning, PackedMessages.antt).
#![tactic(auto)]

pub mod layouts; // layouts.rt: the bits and bytes that they take

ghost use Rattle.std.specs.Prelude.{◌≡◌, min};

// One period and its volume in whole kWh.
#[repr(C)]
#[derive(Clone, Copy)]
pub struct Entry {
    pub period: u8,
    pub volume: i32,
}

impl Entry {
    // Both zero: what reads past the last entry.
    pub const NONE: Entry = Entry {
        period: 0,
        volume: 0,
    };
}

// `authorisation` is the number of the one that it is sent under; the identifier is originator and reference. Entries past `count` are no part of it:
// C fills the array and the count beside it.
#[repr(C)]
#[derive(Clone, Copy)]
pub struct Notification {
    pub authorisation: u8,
    pub agent: u8,
    pub key: u16,
    pub originator: u8,
    pub reference: u16,
    pub first: u16,
    pub last: u16,
    pub count: u8,
    pub entries: [Entry; limits::MOST_ENTRIES_WIDE],
}

impl Notification {
    // All of it zero: what a message of another kind has.
    pub const NONE: Notification = Notification {
        authorisation: 0,
        agent: 0,
        key: 0,
        originator: 0,
        reference: 0,
        first: 0,
        last: 0,
        count: 0,
        entries: [Entry::NONE; limits::MOST_ENTRIES_WIDE],
    };
}

#[repr(C)]
#[derive(Clone, Copy)]
pub struct Nullification {
    pub account: u8,
    pub other: u8,
    pub first: u16,
}

impl Nullification {
    // The same of a nullification.
    pub const NONE: Nullification = Nullification {
        account: 0,
        other: 0,
        first: 0,
    };
}

// Kind 0 is a gate, 1 a notification, 2 a nullification. What a kind lacks is no part of it, and reads as zero. C fills the kind with any
// number, so it is no enum: what is no kind is refused by its number.
#[repr(C)]
#[derive(Clone, Copy)]
pub struct Message {
    pub kind: u8,
    pub notification: Notification,
    pub nullification: Nullification,
}

impl Message {
    // What a refusal gives.
    pub const NONE: Message = Message {
        kind: 0,
        notification: Notification::NONE,
        nullification: Nullification::NONE,
    };
}

// How many of so many entries a notification has room for. Those past the array are of period 0, and give nothing.
pub fn entries_inside(count: u8) -> u8
    ensures { result ≡ min count 50 }
{
    count.min(limits::MOST_ENTRIES)
}
