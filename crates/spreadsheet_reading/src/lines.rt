// What is kept of a line while its bytes come: enough for its entry.
ghost use Rattle.std.specs.Prelude.{◌≡◌, ◌-◌, ◌^◌, ◌≤◌, ◌<◌};
ghost use Rattle.messages.specs.Structs.{entry_for};
ghost use Rattle.spreadsheets.specs.Entries.{with_digit};
ghost use Rattle.spreadsheet_reading.specs.Feeding.{decimals_with, fed, line_after, Small, InRange, entry_from};

use messages::Entry;

// Whether the comma was read, and behind it the point and the minus; the number before the comma; the one behind it, its point left out, and how many of
// its digits are decimals.
#[derive(Clone, Copy, Default)]
pub(crate) struct Line {
    second: bool,
    pointed: bool,
    minus: bool,
    period: u32,
    size: u32,
    decimals: u8,
}

// One digit more in base ten; what is no digit is passed over.
fn with_digit(v: u32, byte: u8) -> u32
    requires { v < 100000000 }
    ensures { result ≡ with_digit v byte }
{
    if byte.is_ascii_digit() {
        return v * 10 + u32::from(byte - b'0');
    }
    v
}

fn decimals_with(pointed: bool, decimals: u8, byte: u8) -> u8
    requires { decimals < 100 }
    ensures { result ≡ decimals_with pointed decimals byte }
{
    if byte.is_ascii_digit() & pointed {
        return decimals + 1;
    }
    decimals
}

// The line with one byte more, which is no line end.
fn feed(line: Line, byte: u8) -> Line
    requires { Small line }
    ensures { result ≡ fed line byte }
{
    if line.second {
        return Line {
            pointed: line.pointed | (byte == b'.'),
            minus: line.minus | (byte == b'-'),
            size: with_digit(line.size, byte),
            decimals: decimals_with(line.pointed, line.decimals, byte),
            ..line
        };
    }
    Line {
        second: byte == b',',
        period: with_digit(line.period, byte),
        ..line
    }
}

// The line after one byte more: after a line end the next, which is blank.
pub(crate) fn line_after(line: Line, byte: u8) -> Line
    requires { Small line }
    ensures { result ≡ line_after line byte }
{
    if byte == b'\n' {
        return Line::default();
    }
    feed(line, byte)
}

// What a number with so many decimals is multiplied by, to be in thousandths.
fn scale(decimals: u8) -> u32
    requires { decimals ≤ 3 }
    ensures { result ≡ 10 ^ (3 - decimals) }
{
    match decimals {
        0 => 1000,
        1 => 100,
        2 => 10,
        _ => 1,
    }
}

// The entry that the line makes: MWh as whole kWh.
pub(crate) fn entry_of(line: Line) -> Entry
    requires { InRange line }
    ensures { result ≡ entry_for (entry_from line) }
{
    let size = (line.size * scale(line.decimals)) as i32;
    Entry {
        period: line.period as u8,
        volume: if line.minus { -size } else { size },
    }
}
