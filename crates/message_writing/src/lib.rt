// Writing: kind three 20, a value that does not fit its field or more than fifty entries 23, no room 24. A refusal leaves the whole buffer as it was.
#![tactic(auto)]

ghost use Rattle.std.specs.Prelude.{◌≡◌};
ghost use Rattle.words.specs.Rules.{answer};
ghost use Rattle.limits.specs.Refusals.{answer_of};
ghost use Rattle.meaning.specs.PackedMessages.{writing_rules, write_message};
ghost use Rattle.messages.specs.Structs.{message_of};
ghost use Rattle.fields.specs.Fronts.{written_as};
ghost use Rattle.message_writing.specs.Structs.{message_written};
ghost use Rattle.message_writing.specs.Writing.{entry_fits, entries_fit, notification_fits, nullification_fits, message_fits, count_of, entries_written, notification_written, nullification_written, message_into};

use limits::refusals::Refusal;
use messages::{Entry, Message, Notification, Nullification, layouts};

const SIX_BITS: u8 = 64;
// "period 6, volume 28 in two's complement"
const ENTRY_WIDTHS: [u8; 2] = [6, 28];

// Both values of an entry fit their fields.
fn entry_fits(e: Entry) -> bool
    ensures { result ≡ entry_fits e }
{
    (e.period < SIX_BITS) & fields::volume_fits(e.volume)
}

// At most 50 entries, and each fits.
fn entries_fit(n: Notification) -> bool
    ensures { result ≡ entries_fit n }
{
    n.count <= limits::MOST_ENTRIES && n.entries[..n.count as usize].iter().all(|e| entry_fits(*e))
}

// The other values of a notification fill their types, or have six bits.
fn notification_fits(n: Notification) -> bool
    ensures { result ≡ notification_fits n }
{
    (n.authorisation < SIX_BITS) & (n.originator < SIX_BITS) & entries_fit(n)
}

fn nullification_fits(x: Nullification) -> bool
    ensures { result ≡ nullification_fits x }
{
    (x.account < SIX_BITS) & (x.other < SIX_BITS)
}

// Every value of the message has room in its field; a kind above 3 has none.
fn message_fits(m: Message) -> bool
    ensures { result ≡ message_fits m }
{
    match m.kind {
        0 => true,
        1 => notification_fits(m.notification),
        2 => nullification_fits(m.nullification),
        _ => false,
    }
}

// The number of entries, none but in a notification.
fn count_of(m: Message) -> u8
    ensures { result ≡ count_of m }
{
    if m.kind == 1 {
        return m.notification.count;
    }
    0
}

// Why this message is refused for a buffer with this room, if it is.
pub fn writing_refusal(m: Message, room: usize) -> Result<(), Refusal>
    ensures { answer_of result ≡ answer (writing_rules (message_of m) room) }
{
    if m.kind == 3 {
        return layouts::kind_refusal(m.kind);
    }
    if !message_fits(m) {
        return Err(Refusal::ValueDoesNotFit);
    }
    if room < layouts::bytes_for(m.kind, count_of(m)) {
        return Err(Refusal::NoRoom);
    }
    Ok(())
}

// The entries behind the 92 bits of the head.
fn write_entries(n: Notification, out: &mut [u8])
    ensures { out.new ≡ entries_written n out.old }
{
    for k in 0..messages::entries_inside(n.count) {
        let e = n.entries[k as usize];
        let values = [e.period as u32, fields::bits_of_volume(e.volume)];
        fields::write_fields(
            out,
            layouts::NOTIFICATION_BITS + layouts::ENTRY_BITS * k as u32,
            &ENTRY_WIDTHS,
            &values,
        );
    }
}

// The head of a notification, then its entries.
fn write_notification(n: Notification, out: &mut [u8])
    ensures { out.new ≡ notification_written n out.old }
{
    let values = [
        1,
        n.authorisation as u32,
        n.agent as u32,
        n.key as u32,
        n.originator as u32,
        n.reference as u32,
        n.first as u32,
        n.last as u32,
        n.count as u32,
    ];
    fields::write_fields(out, 0, &layouts::NOTIFICATION_WIDTHS, &values);
    write_entries(n, out);
}

fn write_nullification(x: Nullification, out: &mut [u8])
    ensures { out.new ≡ nullification_written x out.old }
{
    let values = [2, x.account as u32, x.other as u32, x.first as u32];
    fields::write_fields(out, 0, &layouts::NULLIFICATION_WIDTHS, &values);
}

// The fields of the message by its kind, and zero bits that fill the last byte.
fn write_whole(m: Message, out: &mut [u8])
    ensures { out.new ≡ message_into m out.old }
{
    let kind = m.kind;
    let count = count_of(m);
    match kind {
        1 => write_notification(m.notification, out),
        2 => write_nullification(m.nullification, out),
        _ => fields::write_field(out, 0, 2, 0),
    }
    fields::write_field(
        out,
        layouts::bits_for(kind, count),
        layouts::padding_for(kind, count),
        0,
    );
}

// The message at the front of the buffer, and its length. Bytes past what is written stay; a refusal leaves the whole buffer as it was.
pub fn write_message(m: Message, out: &mut [u8]) -> Result<usize, Refusal>
    ensures { (written_as result ≡ message_written (write_message (message_of m) out.old)) × (out.new ≡ (write_message (message_of m) out.old).out) }
{
    writing_refusal(m, out.len())?;
    write_whole(m, out);
    Ok(layouts::bytes_for(m.kind, count_of(m)))
}
