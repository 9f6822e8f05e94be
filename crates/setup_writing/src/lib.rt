// Writing: 17 (lent lengths aside), 18, 23, 24. A refusal leaves the whole buffer as it was.
#![tactic(auto)]

ghost use Rattle.std.specs.Prelude.{◌≡◌};
ghost use Rattle.words.specs.Rules.{answer};
ghost use Rattle.limits.specs.Refusals.{answer_of};
ghost use Rattle.meaning.specs.PackedSetups.{setup_writing_rules, write_setup};
ghost use Rattle.setups.specs.Structs.{setup_of};
ghost use Rattle.fields.specs.Fronts.{written_as};
ghost use Rattle.setup_writing.specs.Structs.{setup_written};
ghost use Rattle.setup_writing.specs.Writing.{codes_into, row_into, rows_into, setup_into};

use limits::refusals::Refusal;
use setups::{Authorisation, Setup, layouts, rules};

// What refuses this setup for a buffer with this room. Its values always fit their fields once 17 and 18 have passed, so 23 never comes.
pub fn writing_refusal(s: Setup, room: usize) -> Result<(), Refusal>
    ensures { answer_of result ≡ answer (setup_writing_rules (setup_of s) room) }
{
    if rules::counts_wrong(s) | rules::last_day_wrong(s) | rules::code_wrong(s) {
        return Err(Refusal::SetupWrong);
    }
    if rules::some_row_wrong(s) {
        return Err(Refusal::RowWrong);
    }
    if room < layouts::bytes_for(s.days, s.authorisations) {
        return Err(Refusal::NoRoom);
    }
    Ok(())
}

// The code of each day behind the head.
fn write_codes(s: Setup, out: &mut [u8])
    ensures { out.new ≡ codes_into s out.old 8 }
{
    for d in 0..s.days.min(limits::MOST_DAYS) {
        let at = layouts::HEAD_BITS + layouts::CODE_BITS * d as u32;
        fields::write_field(out, at, 2, s.codes[d as usize] as u32);
    }
}

fn write_row(a: Authorisation, at: u32, out: &mut [u8])
    ensures { out.new ≡ row_into a at out.old }
{
    let values = [
        a.agent1 as u32,
        a.agent2 as u32,
        a.account1 as u32,
        a.account2 as u32,
        a.key as u32,
        a.first as u32,
        a.last as u32,
        a.amendment as u32,
    ];
    fields::write_fields(out, at, &layouts::ROW_WIDTHS, &values);
}

// The rows behind the codes.
fn write_rows(s: Setup, out: &mut [u8])
    ensures { out.new ≡ rows_into s out.old 64 }
{
    for k in 0..s.authorisations.min(limits::MOST_AUTHORISATIONS) {
        write_row(s.rows[k as usize], layouts::bits_for(s.days, k), out);
    }
}

// The head, the codes, the rows, and zero bits that fill the last byte.
fn write_whole(s: Setup, out: &mut [u8])
    ensures { out.new ≡ setup_into s out.old }
{
    let values = [
        s.first as u32,
        s.days as u32,
        s.accounts as u32,
        s.authorisations as u32,
    ];
    fields::write_fields(out, 0, &layouts::HEAD_WIDTHS, &values);
    write_codes(s, out);
    write_rows(s, out);
    let bits = layouts::bits_for(s.days, s.authorisations);
    let padding = layouts::padding_for(s.days, s.authorisations);
    fields::write_field(out, bits, padding, 0);
}

// The setup at the front of the buffer, and how many bytes it takes. Bytes past what is written stay; a refusal leaves the whole buffer as it was.
pub fn write_setup(s: Setup, out: &mut [u8]) -> Result<usize, Refusal>
    ensures { (written_as result ≡ setup_written (write_setup (setup_of s) out.old)) × (out.new ≡ (write_setup (setup_of s) out.old).out) }
{
    writing_refusal(s, out.len())?;
    write_whole(s, out);
    Ok(layouts::bytes_for(s.days, s.authorisations))
}
