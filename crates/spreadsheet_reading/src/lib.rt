// Reads a spreadsheet (document 02, A5): one pass over the bytes, by a table of what may follow each beginning of a file.
#![tactic(auto)]

mod table; // table.rt: the tables
mod lines; // lines.rt: a line while its bytes come

ghost use Rattle.std.specs.Prelude.{◌≡◌, ◌+◌, ◌≤◌, length, if◌then◌else◌};
ghost use Rattle.words.specs.Tests.{◌=?◌};
ghost use Rattle.spreadsheet_reading.specs.Machine.{fresh_state};
ghost use Rattle.spreadsheet_reading.specs.Reading.{Reading, as_spreadsheet_read};

use limits::refusals::Refusal;
use lines::Line;
use messages::Entry;
use spreadsheets::Spreadsheet;
use table::Tables;

// Why the bytes are refused, and at which of them it was decided; the end counts as one.
#[derive(Clone, Copy)]
pub struct Unreadable {
    pub refusal: Refusal,
    pub place: usize,
}

// What C is given: `place` is that of the byte at which the answer was decided; the end counts as one. With a refusal the spreadsheet is all zero.
#[repr(C)]
#[derive(Clone, Copy)]
pub struct SpreadsheetRead {
    pub answer: u8,
    pub place: usize,
    pub spreadsheet: Spreadsheet,
}

impl SpreadsheetRead {
    // Of what was read of so many bytes. A valid file is decided at its end.
    pub fn of(outcome: Result<Spreadsheet, Unreadable>, length: usize) -> SpreadsheetRead
        ensures { result ≡ as_spreadsheet_read length outcome }
    {
        match outcome {
            Ok(spreadsheet) => SpreadsheetRead {
                answer: 0,
                place: length,
                spreadsheet,
            },
            Err(unreadable) => SpreadsheetRead {
                answer: unreadable.refusal.into(),
                place: unreadable.place,
                spreadsheet: Spreadsheet {
                    count: 0,
                    entries: [Entry::NONE; limits::MOST_ENTRIES_WIDE],
                },
            },
        }
    }
}

// The entries begun with a byte more: it begins one where a line after the header may begin.
fn begun_after(begun: u8, state: u8) -> u8
    requires { begun ≤ 50 }
    ensures { result ≡ (if state =? fresh_state then begun + 1 else begun) }
{
    if state == table::FRESH {
        return begun + 1;
    }
    begun
}

// Reads by the two tables, which are lent.
fn read_by(tables: Tables<'_>, bytes: &[u8]) -> Result<Spreadsheet, Unreadable>
    ensures { Reading bytes.now (as_spreadsheet_read (length bytes.now) result) }
{
    let mut entries = [Entry::NONE; limits::MOST_ENTRIES_WIDE];
    let mut line = Line::default();
    let mut state = table::START;
    let mut begun: u8 = 0;
    for (place, &byte) in bytes.iter().enumerate() {
        let turn = tables.turn_by(state, byte);
        if turn < table::FIRST_STATE {
            return Err(Unreadable {
                refusal: table::refusal_in(turn),
                place,
            });
        }
        if (state == table::FRESH) & (begun == limits::MOST_ENTRIES) {
            return Err(Unreadable {
                refusal: Refusal::TooManyRecords,
                place,
            });
        }
        begun = begun_after(begun, state);
        if (byte == b'\n') & (0 < begun) {
            entries[(begun - 1) as usize] = lines::entry_of(line);
        }
        line = lines::line_after(line, byte);
        state = turn - table::FIRST_STATE;
    }
    let turn = tables.turn_at_end(state);
    if turn != table::FILE {
        return Err(Unreadable {
            refusal: table::refusal_in(turn),
            place: bytes.len(),
        });
    }
    if (state != table::FRESH) & (0 < begun) {
        entries[(begun - 1) as usize] = lines::entry_of(line);
    }
    Ok(Spreadsheet {
        count: begun,
        entries,
    })
}

// The entries of a spreadsheet; or why it is refused, at the first byte by which no valid file can begin so. The tables are laid out here, once: the
// compiled code lays a constant array out wherever one is read.
pub fn read_spreadsheet(bytes: &[u8]) -> Result<Spreadsheet, Unreadable>
    ensures { Reading bytes.now (as_spreadsheet_read (length bytes.now) result) }
{
    let columns = table::COLUMNS;
    let turns = table::TURNS;
    let tables = Tables {
        columns: &columns,
        turns: &turns,
    };
    read_by(tables, bytes)
}
