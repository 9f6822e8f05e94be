// Reading: empty 19, kind three 20, short of the 12 or 4 bytes 19, more than fifty entries 21, short of the whole 19, a padding bit 22.
#![tactic(auto)]

ghost use Rattle.std.specs.Prelude.{◌≡◌, not, ◌+◌, ◌-◌, ◌*◌, ◌/◌, ◌^◌, ◌≤◌, ◌<◌, eqb, length, if◌then◌else◌};
ghost use Rattle.std.specs.Result.{result_unwrap_or};
ghost use Rattle.words.specs.Tests.{◌<?◌, ◌=?◌};
ghost use Rattle.words.specs.Rules.{answer};
ghost use Rattle.words.specs.Fields.{total, bytes_for, field_at};
ghost use Rattle.limits.specs.Refusals.{answer_of};
ghost use Rattle.meaning.specs.PackedMessages.{kind_in, count_in, layout_for, layout_in, reading_rules, read_message};
ghost use Rattle.fields.specs.Narrow.{narrow};
ghost use Rattle.messages.specs.Structs.{no_notification, no_nullification};
ghost use Rattle.message_reading.specs.Structs.{message_read, read_as};
ghost use Rattle.message_reading.specs.Parts.{entry_in, notification_in, nullification_in};

use fields::{AtFront, whole_bits};
use limits::refusals::Refusal;
use messages::{Entry, Message, Notification, Nullification, layouts};

// An entry: a period of 6 bits, and behind it a volume of 28.
const ENTRY_WIDTH: u8 = layouts::ENTRY_BITS as u8;

const VOLUME_WIDTH: u32 = 28;

const VOLUME_MASK: u64 = 0xfffffff;

// What C is given. With a refusal the length is 0 and the message all zero.
#[repr(C)]
#[derive(Clone, Copy)]
pub struct MessageRead {
    pub answer: u8,
    pub length: usize,
    pub message: Message,
}

impl From<Result<AtFront<Message>, Refusal>> for MessageRead {
    ghost from_gives = { λ outcome s. s ≡ read_as outcome };

    fn from(outcome: Result<AtFront<Message>, Refusal>) -> MessageRead {
        match outcome {
            Ok(front) => MessageRead {
                answer: 0,
                length: front.length,
                message: front.value,
            },
            Err(refusal) => MessageRead {
                answer: refusal.into(),
                length: 0,
                message: Message::NONE,
            },
        }
    }
}

// The kind, 0 to 3: a number, as in a message by value, and kind three too, which is refused.
pub fn kind_in(bytes: &[u8]) -> u8
    ensures { result ≡ kind_in bytes.now }
{
    fields::read_field(bytes, 0, 2) as u8
}

// How many bits the message has, as far as its head tells; with more than fifty entries it is refused. Where the head of a notification is cut off,
// those of the head, which the bytes are short of.
fn bits_in(bytes: &[u8], kind: u8) -> Result<u32, Refusal>
    requires { kind ≡ kind_in bytes.now }
    ensures { let s = bytes.now in
        let bits = if length s <? bytes_for (layout_for (kind_in s) 0) then total (layout_for (kind_in s) 0) else if 50 <? count_in s then 0 else total (layout_in s) in
        (answer_of result ≡ (if bits =? 0 then 21 else 0)) × (result_unwrap_or result 0 ≡ bits) }
{
    if (kind == 1) & (layouts::bytes_for(1, 0) <= bytes.len()) {
        let count = fields::read_field(bytes, layouts::COUNT_AT, 6) as u8;
        if limits::MOST_ENTRIES < count {
            return Err(Refusal::TooManyEntries);
        }
        return Ok(layouts::bits_for(1, count));
    }
    Ok(layouts::bits_for(kind, 0))
}

// Some bit is 1 behind the first so many, in the last byte that they reach into. It is there, so one look without a test for the end.
fn padding_bit(bytes: &[u8], bits: u32) -> bool
    requires { (0 < bits) × (bits ≤ length bytes.now * 8) }
    ensures { result ≡ not (eqb (field_at bytes.now bits ((bits + 7) / 8 * 8 - bits)) 0) }
{
    let last = bytes[whole_bits::bytes_of(bits) - 1];
    (last & ((1 << whole_bits::padding_of(bits)) - 1)) != 0
}

// The bytes that the message at the front takes, by each rule of reading in its order. What is short of its head has no count that could be too large,
// so one test finds it with what is short of the whole.
fn size_in(bytes: &[u8]) -> Result<usize, Refusal>
    ensures { let s = bytes.now in
        (answer_of result ≡ answer (reading_rules s)) × (result_unwrap_or result 0 ≡ (read_message s).length) }
{
    if bytes.is_empty() {
        return Err(Refusal::BytesEndTooSoon);
    }
    let kind = kind_in(bytes);
    if kind == 3 {
        return Err(Refusal::KindThree);
    }
    let bits = bits_in(bytes, kind)?;
    let taken = whole_bits::bytes_of(bits);
    if bytes.len() < taken {
        return Err(Refusal::BytesEndTooSoon);
    }
    if padding_bit(bytes, bits) {
        return Err(Refusal::PaddingBit);
    }
    Ok(taken)
}

// Why these bytes are refused, if they are.
pub fn reading_refusal(bytes: &[u8]) -> Result<(), Refusal>
    ensures { answer_of result ≡ answer (reading_rules bytes.now) }
{
    size_in(bytes)?;
    Ok(())
}

// Entry k of a notification: its period and its volume are read at once and cut in two.
pub fn entry_in(bytes: &[u8], k: u8) -> Entry
    ensures { result ≡ entry_in bytes.now k }
{
    let at = layouts::NOTIFICATION_BITS + layouts::ENTRY_BITS * k as u32;
    let both = fields::read_long(bytes, at, ENTRY_WIDTH);
    let period = (both >> VOLUME_WIDTH) as u8;
    let volume = fields::volume_of_bits((both & VOLUME_MASK) as u32);
    Entry { period, volume }
}

// A field of a notification; of a message of another kind it is zero.
fn field_in(bytes: &[u8], kind: u8, at: u32, width: u8) -> u32
    ensures { (result ≡ (if kind =? 1 then field_at bytes.now at (narrow width) else 0)) × (result < 2 ^ narrow width) }
{
    if kind != 1 {
        return 0;
    }
    fields::read_field(bytes, at, width)
}

// The notification that the bytes hold; of a message of another kind all of it is zero. One way for both, since where two ways meet, a message is
// copied place by place.
fn notification_of(bytes: &[u8], kind: u8) -> Notification
    ensures { result ≡ (if kind =? 1 then notification_in bytes.now else no_notification) }
{
    let count = field_in(bytes, kind, layouts::COUNT_AT, 6) as u8;
    let mut entries = [Entry::NONE; limits::MOST_ENTRIES_WIDE];
    for k in 0..messages::entries_inside(count) {
        entries[k as usize] = entry_in(bytes, k);
    }
    Notification {
        authorisation: field_in(bytes, kind, layouts::AUTHORISATION_AT, 6) as u8,
        agent: field_in(bytes, kind, layouts::AGENT_AT, 8) as u8,
        key: field_in(bytes, kind, layouts::KEY_AT, 16) as u16,
        originator: field_in(bytes, kind, layouts::ORIGINATOR_AT, 6) as u8,
        reference: field_in(bytes, kind, layouts::REFERENCE_AT, 16) as u16,
        first: field_in(bytes, kind, layouts::FIRST_DAY_AT, 16) as u16,
        last: field_in(bytes, kind, layouts::LAST_DAY_AT, 16) as u16,
        count,
        entries,
    }
}

// The nullification that the bytes hold; of a message of another kind all of it is zero.
fn nullification_of(bytes: &[u8], kind: u8) -> Nullification
    ensures { result ≡ (if kind =? 2 then nullification_in bytes.now else no_nullification) }
{
    if kind != 2 {
        return Nullification::NONE;
    }
    Nullification {
        account: fields::read_field(bytes, layouts::ACCOUNT_AT, 6) as u8,
        other: fields::read_field(bytes, layouts::OTHER_ACCOUNT_AT, 6) as u8,
        first: fields::read_field(bytes, layouts::NULLIFIED_FROM_AT, 16) as u16,
    }
}

// The bytes that the message at the front takes, 0 with a refusal. Its entries are not read.
pub fn message_length(bytes: &[u8]) -> usize
    ensures { result ≡ (read_message bytes.now).length }
{
    size_in(bytes).unwrap_or(0)
}

// The message at the front of the bytes and its length. Bytes after it belong to the next.
pub fn read_message(bytes: &[u8]) -> Result<AtFront<Message>, Refusal>
    ensures { read_as result ≡ message_read (read_message bytes.now) }
{
    let length = size_in(bytes)?;
    let kind = kind_in(bytes);
    Ok(AtFront {
        length,
        value: Message {
            kind,
            notification: notification_of(bytes, kind),
            nullification: nullification_of(bytes, kind),
        },
    })
}
