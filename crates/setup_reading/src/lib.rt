// Reading: under 5 bytes 19, counts, last day or lent lengths 17, short 19, day code three 17, rows 18, a padding bit 22.
#![tactic(auto)]

ghost use Rattle.std.specs.Prelude.{not, ◌≡◌, eqb};
ghost use Rattle.words.specs.Rules.{answer};
ghost use Rattle.words.specs.Fields.{total, padding, field_at};
ghost use Rattle.meaning.specs.PackedSetups.{setup_layout_for, content_rules, setup_reading_rules, read_setup};
ghost use Rattle.limits.specs.Refusals.{answer_of};
ghost use Rattle.setup_reading.specs.Structs.{setup_read, as_setup_read};
ghost use Rattle.setup_reading.specs.Parts.{row_in, codes_in, rows_in, setup_struct_in};

use fields::AtFront;
use limits::refusals::Refusal;
use setups::{Authorisation, Setup, layouts, rules};

// What C is given. With a refusal the length is 0 and the setup all zero.
#[repr(C)]
#[derive(Clone, Copy)]
pub struct SetupRead {
    pub answer: u8,
    pub length: usize,
    pub setup: Setup,
}

impl From<Result<AtFront<Setup>, Refusal>> for SetupRead {
    ghost from_gives = { λ outcome read. read ≡ as_setup_read outcome };

    fn from(outcome: Result<AtFront<Setup>, Refusal>) -> SetupRead {
        match outcome {
            Ok(front) => SetupRead {
                answer: 0,
                length: front.length,
                setup: front.value,
            },
            Err(refusal) => SetupRead {
                answer: refusal.into(),
                length: 0,
                setup: Setup::NONE,
            },
        }
    }
}

// What the bytes hold, and whether anything refuses it before their padding is looked at. The setup is there with a refusal too.
#[derive(Clone, Copy)]
pub struct Content {
    pub outcome: Result<(), Refusal>,
    pub setup: Setup,
}

const HEAD_BYTES: usize = 5;

// Some padding bit is 1.
pub fn padding_set(bytes: &[u8], days: u8, authorisations: u8) -> bool
    ensures { result ≡ not (eqb (field_at bytes.now (total (setup_layout_for days authorisations)) (padding (setup_layout_for days authorisations))) 0) }
{
    let bits = layouts::bits_for(days, authorisations);
    let width = layouts::padding_for(days, authorisations);
    fields::read_field(bytes, bits, width) != 0
}

// Row k of a setup of so many days.
fn row_in(bytes: &[u8], days: u8, k: u8) -> Authorisation
    ensures { result ≡ row_in bytes.now days k }
{
    let mut v = [0u32; 8];
    fields::read_fields(
        bytes,
        layouts::bits_for(days, k),
        &layouts::ROW_WIDTHS,
        &mut v,
    );
    Authorisation {
        agent1: v[0] as u8,
        agent2: v[1] as u8,
        account1: v[2] as u8,
        account2: v[3] as u8,
        key: v[4] as u16,
        first: v[5] as u16,
        last: v[6] as u16,
        amendment: v[7] as u8,
    }
}

// The codes of so many days, at most 8; the places past them are zero.
fn codes_in(bytes: &[u8], days: u8) -> [u8; limits::MOST_DAYS_WIDE]
    ensures { result ≡ codes_in bytes.now days }
{
    let mut codes = [0; limits::MOST_DAYS_WIDE];
    for d in 0..days.min(limits::MOST_DAYS) {
        let at = layouts::HEAD_BITS + layouts::CODE_BITS * d as u32;
        codes[d as usize] = fields::read_field(bytes, at, 2) as u8;
    }
    codes
}

// So many rows, at most 64; the places past them are zero.
fn rows_in(bytes: &[u8], days: u8, count: u8) -> [Authorisation; limits::MOST_AUTHORISATIONS_WIDE]
    ensures { result ≡ rows_in bytes.now days count }
{
    let mut rows = [Authorisation::NONE; limits::MOST_AUTHORISATIONS_WIDE];
    for k in 0..count.min(limits::MOST_AUTHORISATIONS) {
        rows[k as usize] = row_in(bytes, days, k);
    }
    rows
}

// The setup that the bytes hold.
fn setup_in(bytes: &[u8]) -> Setup
    ensures { result ≡ setup_struct_in bytes.now }
{
    let mut v = [0u32; 4];
    fields::read_fields(bytes, 0, &layouts::HEAD_WIDTHS, &mut v);
    let days = v[1] as u8;
    let authorisations = v[3] as u8;
    let codes = codes_in(bytes, days);
    let rows = rows_in(bytes, days, authorisations);
    Setup {
        first: v[0] as u16,
        days,
        accounts: v[2] as u8,
        authorisations,
        codes,
        rows,
    }
}

// What refuses these bytes, which hold the setup `s`, before their padding is looked at: 19, 17, 19, 17, 18.
fn content_refusal(
    bytes: &[u8],
    s: Setup,
    slots: usize,
    lent1: usize,
    lent2: usize,
) -> Result<(), Refusal>
    requires { s ≡ setup_struct_in bytes.now }
    ensures { answer_of result ≡ answer (content_rules bytes.now slots lent1 lent2) }
{
    if bytes.len() < HEAD_BYTES {
        return Err(Refusal::BytesEndTooSoon);
    }
    if rules::counts_wrong(s)
        | rules::last_day_wrong(s)
        | rules::lent_wrong(s, slots, lent1, lent2)
    {
        return Err(Refusal::SetupWrong);
    }
    if bytes.len() < layouts::bytes_for(s.days, s.authorisations) {
        return Err(Refusal::BytesEndTooSoon);
    }
    if rules::code_wrong(s) {
        return Err(Refusal::SetupWrong);
    }
    if rules::some_row_wrong(s) {
        return Err(Refusal::RowWrong);
    }
    Ok(())
}

// The setup in hand, whatever its padding: a checked setup is held against the calendar after this, and before its padding is looked at (02, A2).
pub fn content_in(bytes: &[u8], slots: usize, lent1: usize, lent2: usize) -> Content
    ensures outcome { answer_of result.outcome ≡ answer (content_rules bytes.now slots lent1 lent2) }
    ensures setup { result.setup ≡ setup_struct_in bytes.now }
{
    let setup = setup_in(bytes);
    let outcome = content_refusal(bytes, setup, slots, lent1, lent2);
    Content { outcome, setup }
}

// What refuses these bytes for so many slots and two lent tables of these lengths.
pub fn reading_refusal(
    bytes: &[u8],
    slots: usize,
    lent1: usize,
    lent2: usize,
) -> Result<(), Refusal>
    ensures { answer_of result ≡ answer (setup_reading_rules bytes.now slots lent1 lent2) }
{
    let content = content_in(bytes, slots, lent1, lent2);
    content.outcome?;
    if padding_set(bytes, content.setup.days, content.setup.authorisations) {
        return Err(Refusal::PaddingBit);
    }
    Ok(())
}

// The setup at the front of the bytes. Bytes after it belong to the messages.
pub fn read_setup(
    bytes: &[u8],
    slots: usize,
    lent1: usize,
    lent2: usize,
) -> Result<AtFront<Setup>, Refusal>
    ensures { as_setup_read result ≡ setup_read (read_setup bytes.now slots lent1 lent2) }
{
    reading_refusal(bytes, slots, lent1, lent2)?;
    let setup = setup_in(bytes);
    Ok(AtFront {
        length: layouts::bytes_for(setup.days, setup.authorisations),
        value: setup,
    })
}
