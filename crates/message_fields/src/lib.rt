// What is asked of message bytes, one field at a time, by the field's number (include/ghendufika.h names them). A field's place follows from its number,
// so a question reads that field and what decides a refusal, and no other entry.
#![tactic(auto)]

ghost use Rattle.std.specs.Prelude.{◌≡◌, ◌<◌, get_or};
ghost use Rattle.meaning.specs.PackedMessages.{read_message};
ghost use Rattle.messages.specs.Structs.{no_entry};
ghost use Rattle.message_reading.specs.Parts.{notification_in, nullification_in};
ghost use Rattle.message_fields.specs.Questions.{notification_field, entry_field, nullification_field, field_in};

use messages::{Entry, layouts};

const PERIODS: u32 = 100;

const PAST_PERIODS: u32 = 150;

const VOLUMES: u32 = 200;

const PAST_VOLUMES: u32 = 250;

// Entry k of a notification. One past the count is no part of it, and reads as zero.
fn entry_of(bytes: &[u8], k: u8) -> Entry
    requires { k < 50 }
    ensures { result ≡ get_or (notification_in bytes.now).entries k no_entry }
{
    let count = fields::read_field(bytes, layouts::COUNT_AT, 6);
    if count <= k as u32 {
        return Entry::NONE;
    }
    message_reading::entry_in(bytes, k)
}

// The period or the volume of an entry.
fn entry_field_in(bytes: &[u8], field: u32) -> i64
    ensures { result ≡ entry_field (notification_in bytes.now) field }
{
    match field {
        PERIODS..PAST_PERIODS => entry_of(bytes, (field - PERIODS) as u8).period as i64,
        VOLUMES..PAST_VOLUMES => entry_of(bytes, (field - VOLUMES) as u8).volume as i64,
        _ => 0,
    }
}

// A place and a width each, in the order of the layout: "kind 1 (2), authorisation 6, agent 8, key 16, originator 6, reference 16, first day 16, last
// day 16, count 6". Each field begins where the one before it ends.
fn notification_field_in(bytes: &[u8], field: u32) -> i64
    ensures { result ≡ notification_field (notification_in bytes.now) field }
{
    match field {
        1 => fields::read_field(bytes, layouts::AUTHORISATION_AT, 6) as i64,
        2 => fields::read_field(bytes, layouts::AGENT_AT, 8) as i64,
        3 => fields::read_field(bytes, layouts::KEY_AT, 16) as i64,
        4 => fields::read_field(bytes, layouts::ORIGINATOR_AT, 6) as i64,
        5 => fields::read_field(bytes, layouts::REFERENCE_AT, 16) as i64,
        6 => fields::read_field(bytes, layouts::FIRST_DAY_AT, 16) as i64,
        7 => fields::read_field(bytes, layouts::LAST_DAY_AT, 16) as i64,
        8 => fields::read_field(bytes, layouts::COUNT_AT, 6) as i64,
        _ => entry_field_in(bytes, field),
    }
}

// The same of "kind 2 (2), account 6, account 6, first day 16".
fn nullification_field_in(bytes: &[u8], field: u32) -> i64
    ensures { result ≡ nullification_field (nullification_in bytes.now) field }
{
    match field {
        6 => fields::read_field(bytes, layouts::NULLIFIED_FROM_AT, 16) as i64,
        9 => fields::read_field(bytes, layouts::ACCOUNT_AT, 6) as i64,
        10 => fields::read_field(bytes, layouts::OTHER_ACCOUNT_AT, 6) as i64,
        _ => 0,
    }
}

// Any one field of the message at the front of the bytes. One that it lacks, an unknown one and, with a refusal, every one is zero.
pub fn field_in(bytes: &[u8], field: u32) -> i64
    ensures { result ≡ field_in (read_message bytes.now).read field }
{
    if message_reading::reading_refusal(bytes).is_err() {
        return 0;
    }
    let kind = message_reading::kind_in(bytes);
    if field == 0 {
        return kind as i64;
    }
    match kind {
        1 => notification_field_in(bytes, field),
        2 => nullification_field_in(bytes, field),
        _ => 0,
    }
}
