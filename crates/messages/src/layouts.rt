// The layouts: where a message's fields stand, and the bits, bytes and padding of one of a kind and a number of entries.
ghost use Rattle.std.specs.Prelude.{◌≡◌};
ghost use Rattle.words.specs.Fields.{total, bytes_for, padding};
ghost use Rattle.limits.specs.Refusals.{answer_of};
ghost use Rattle.meaning.specs.PackedMessages.{layout_for};
ghost use Rattle.messages.specs.Parts.{kind_refusal};

use fields::whole_bits;
use limits::refusals::Refusal;

// "Notification: kind 1 (2), authorisation 6, agent 8, key 16, originator 6, reference 16, first day 16, last day 16, count 6"
pub const NOTIFICATION_WIDTHS: [u8; 9] = [2, 6, 8, 16, 6, 16, 16, 16, 6];
// "Nullification: kind 2 (2), account 6, account 6, first day 16"
pub const NULLIFICATION_WIDTHS: [u8; 4] = [2, 6, 6, 16];

// The places of a notification's fields: each begins where the one before it ends, and the entries behind the last.
pub const AUTHORISATION_AT: u32 = 2;

pub const AGENT_AT: u32 = 8;

pub const KEY_AT: u32 = 16;

pub const ORIGINATOR_AT: u32 = 32;

pub const REFERENCE_AT: u32 = 38;

pub const FIRST_DAY_AT: u32 = 54;

pub const LAST_DAY_AT: u32 = 70;

pub const COUNT_AT: u32 = 86;

pub const NOTIFICATION_BITS: u32 = 92;

pub const ENTRY_BITS: u32 = 34;

// The places of a nullification's fields.
pub const ACCOUNT_AT: u32 = 2;

pub const OTHER_ACCOUNT_AT: u32 = 8;

pub const NULLIFIED_FROM_AT: u32 = 14;

const NULLIFICATION_BITS: u32 = 30;

const KIND_BITS: u32 = 2;

// The fourth kind is refused by its own number; a kind above it does not fit its field of 2 bits.
pub fn kind_refusal(kind: u8) -> Result<(), Refusal>
    ensures { answer_of result ≡ kind_refusal kind }
{
    match kind {
        0..=2 => Ok(()),
        3 => Err(Refusal::KindThree),
        _ => Err(Refusal::ValueDoesNotFit),
    }
}

// The bits of a message of a kind and a number of entries.
pub fn bits_for(kind: u8, count: u8) -> u32
    ensures { result ≡ total (layout_for kind count) }
{
    match kind {
        1 => NOTIFICATION_BITS + ENTRY_BITS * count as u32,
        2 => NULLIFICATION_BITS,
        _ => KIND_BITS,
    }
}

// The bytes that it takes.
pub fn bytes_for(kind: u8, count: u8) -> usize
    ensures { result ≡ bytes_for (layout_for kind count) }
{
    whole_bits::bytes_of(bits_for(kind, count))
}

// The bits that are left over in the last byte.
pub fn padding_for(kind: u8, count: u8) -> u8
    ensures { result ≡ padding (layout_for kind count) }
{
    whole_bits::padding_of(bits_for(kind, count))
}
