// Volumes from a spreadsheet, and into one (document 02, A5), from C. On a refusal a function gives what its struct has for one.
ghost use Rattle.std.specs.Prelude.{◌≡◌};
ghost use Rattle.spreadsheets.specs.Structs.{entries_in};
ghost use Rattle.spreadsheets.specs.Writing.{write_spreadsheet};
ghost use Rattle.spreadsheet_reading.specs.Reading.{Reading};
ghost use Rattle.spreadsheet_writing.specs.Structs.{spreadsheet_written};

#[unsafe(no_mangle)]
pub extern "C" fn ghendufika_read_spreadsheet(bytes: &[u8]) -> spreadsheet_reading::SpreadsheetRead
    ensures { Reading bytes.now result }
{
    let outcome = spreadsheet_reading::read_spreadsheet(bytes);
    spreadsheet_reading::SpreadsheetRead::of(outcome, bytes.len())
}

#[unsafe(no_mangle)]
pub extern "C" fn ghendufika_write_spreadsheet(
    x: spreadsheets::Spreadsheet,
    out: &mut [u8],
) -> fields::WrittenBytes
    ensures { (result ≡ spreadsheet_written (write_spreadsheet (entries_in x) out.old)) × (out.new ≡ (write_spreadsheet (entries_in x) out.old).out) }
{
    spreadsheet_writing::write_spreadsheet(x, out).into()
}
