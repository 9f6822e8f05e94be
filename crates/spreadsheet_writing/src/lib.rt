// Writes what a spreadsheet holds as its file (document 02, A5): 23 for more than fifty entries or for one out of range, 24 for no room. A refusal
// leaves the whole buffer as it was. The buffer and the place in it are two parameters, as in decimals.
#![tactic(auto)]

ghost use Rattle.std.specs.Prelude.{◌&&◌, ◌≡◌, ◌+◌, ◌≤◌, length};
ghost use Rattle.words.specs.Lists.{every};
ghost use Rattle.words.specs.Tests.{◌≤?◌};
ghost use Rattle.decimals.specs.Texts.{Written};
ghost use Rattle.messages.specs.Structs.{entry_of};
ghost use Rattle.spreadsheets.specs.Structs.{entries_in};
ghost use Rattle.spreadsheets.specs.Writing.{size_text, mwh_text, entry_line, written, writable, write_spreadsheet};
ghost use Rattle.fields.specs.Fronts.{written_as};
ghost use Rattle.spreadsheet_writing.specs.Structs.{spreadsheet_written};

use limits::refusals::Refusal;
use messages::Entry;
use spreadsheets::Spreadsheet;

// No file is longer: the header has 11 bytes, and no line of an entry more than 14.
const MOST_BYTES: usize = 11 + 14 * limits::MOST_ENTRIES_WIDE;

const KWH_A_MWH: u64 = 1000;

fn is_writable(e: Entry) -> bool
    ensures { result ≡ writable (entry_of e) }
{
    e.period <= limits::MOST_SPREADSHEET_PERIOD
        && (limits::LEAST_KWH..=limits::MOST_KWH).contains(&e.volume)
}

// At most 50 entries, and each is writable.
fn all_writable(x: Spreadsheet) -> bool
    ensures { result ≡ (length (entries_in x) ≤? 50 && every writable (entries_in x)) }
{
    x.count <= limits::MOST_ENTRIES
        && x.entries[..x.count as usize]
            .iter()
            .all(|e| is_writable(*e))
}

// Whole MWh, a point and "always three decimals"; the place after them.
fn put_size(out: &mut [u8], at: usize, kwh: u64) -> usize
    requires { at + length (size_text kwh) ≤ length out.old }
    ensures { Written out.old at (size_text kwh) out.new result }
{
    let after_whole = decimals::put_decimal(out, at, kwh / KWH_A_MWH);
    let places = [
        b'.',
        decimals::last_digit(kwh / 100),
        decimals::last_digit(kwh / 10),
        decimals::last_digit(kwh),
    ];
    decimals::put_word(out, after_whole, &places)
}

// "Minus only below zero"
fn put_mwh(out: &mut [u8], at: usize, kwh: i64) -> usize
    requires { at + length (mwh_text kwh) ≤ length out.old }
    ensures { Written out.old at (mwh_text kwh) out.new result }
{
    if kwh < 0 {
        let after_sign = decimals::put_word(out, at, b"-");
        return put_size(out, after_sign, decimals::size(kwh));
    }
    put_size(out, at, decimals::size(kwh))
}

// The line of an entry, "ended by LF".
fn put_entry(out: &mut [u8], at: usize, e: Entry) -> usize
    requires { at + length (entry_line (entry_of e)) ≤ length out.old }
    ensures { Written out.old at (entry_line (entry_of e)) out.new result }
{
    let after_period = decimals::put_decimal(out, at, e.period as u64);
    let after_comma = decimals::put_word(out, after_period, b",");
    let after_mwh = put_mwh(out, after_comma, e.volume as i64);
    decimals::put_word(out, after_mwh, b"\n")
}

// The header and the lines of the entries at the front of the buffer; the place after them.
fn put_file(out: &mut [u8], x: Spreadsheet) -> usize
    requires { (x.count ≤ 50) × (length (written (entries_in x)) ≤ length out.old) }
    ensures { Written out.old 0 (written (entries_in x)) out.new result }
{
    let mut at = decimals::put_word(out, 0, b"period,mwh\n");
    for e in &x.entries[..x.count as usize] {
        at = put_entry(out, at, *e);
    }
    at
}

// The file at the front of the buffer, and its length. Bytes past it stay. It is made beside the buffer, since only then its length is known.
pub fn write_spreadsheet(x: Spreadsheet, out: &mut [u8]) -> Result<usize, Refusal>
    ensures { (written_as result ≡ spreadsheet_written (write_spreadsheet (entries_in x) out.old)) × (out.new ≡ (write_spreadsheet (entries_in x) out.old).out) }
{
    if !all_writable(x) {
        return Err(Refusal::ValueDoesNotFit);
    }
    let mut text = [0u8; MOST_BYTES];
    let length = put_file(&mut text, x);
    if out.len() < length {
        return Err(Refusal::NoRoom);
    }
    out[..length].copy_from_slice(&text[..length]);
    Ok(length)
}
