// How many bytes so many bits take, and what is left over in the last of them.
ghost use Rattle.std.specs.Prelude.{◌≡◌, ◌+◌, ◌-◌, ◌*◌, ◌/◌};

// The bytes that so many bits take.
pub fn bytes_of(bits: u32) -> usize
    ensures { result ≡ (bits + 7) / 8 }
{
    bits.div_ceil(8) as usize
}

// The bits that are left over in the last of those bytes.
pub fn padding_of(bits: u32) -> u8
    ensures { result ≡ (bits + 7) / 8 * 8 - bits }
{
    ((8 - bits % 8) % 8) as u8
}
