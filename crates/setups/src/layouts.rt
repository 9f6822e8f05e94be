// The layout of a packed setup: its widths, and how many bits and bytes it takes (meaning, PackedSetups.antt).
ghost use Rattle.std.specs.Prelude.{◌≡◌};
ghost use Rattle.words.specs.Fields.{total, bytes_for, padding};
ghost use Rattle.meaning.specs.PackedSetups.{setup_layout_for};

use fields::whole_bits;

// "first day 16, days 4, accounts 7, authorisations 7"
pub const HEAD_WIDTHS: [u8; 4] = [16, 4, 7, 7];
// "agents 8 and 8, accounts 6 and 6, key 16, first day 16, last day 16, type 2"
pub const ROW_WIDTHS: [u8; 8] = [8, 8, 6, 6, 16, 16, 16, 2];

pub const HEAD_BITS: u32 = 34;

pub const CODE_BITS: u32 = 2;

const ROW_BITS: u32 = 78;

// The bits of a setup of so many days and authorisations.
pub fn bits_for(days: u8, authorisations: u8) -> u32
    ensures { result ≡ total (setup_layout_for days authorisations) }
{
    HEAD_BITS + CODE_BITS * days as u32 + ROW_BITS * authorisations as u32
}

// The bytes that it takes.
pub fn bytes_for(days: u8, authorisations: u8) -> usize
    ensures { result ≡ bytes_for (setup_layout_for days authorisations) }
{
    whole_bits::bytes_of(bits_for(days, authorisations))
}

// The bits that are left over in the last byte.
pub fn padding_for(days: u8, authorisations: u8) -> u8
    ensures { result ≡ padding (setup_layout_for days authorisations) }
{
    whole_bits::padding_of(bits_for(days, authorisations))
}
