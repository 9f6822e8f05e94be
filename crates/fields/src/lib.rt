// Fields packed into bytes, most significant bit first (words, Fields.antt). A field has at most 32 bits, or 56 by `read_long`, and a call reads or
// writes at most 64 fields. Past the end of the bytes a bit is 0, and writing one changes nothing, so no caller owes an index.
#![tactic(auto)]

pub mod whole_bits; // whole_bits.rt: how many bytes so many bits take
mod whole_bytes; // whole_bytes.rt: one field, by whole bytes joined and cut

ghost use Rattle.std.specs.Prelude.{◌≡◌, ◌+◌, ◌%◌, ◌<◌, ◌^◌, min};
ghost use Rattle.std.specs.Int.Signed.{mag};
ghost use Rattle.words.specs.Fields.{field_at, set_field, fits_signed, signed_of, bits_of};
ghost use Rattle.fields.specs.Fronts.{written_as};
ghost use Rattle.fields.specs.Narrow.{narrow, fewest, read_into, write_from, volume_bits};

use limits::refusals::Refusal;

const WIDEST_FIELD: usize = 32;

// Eight bytes hold as many bits, whichever bit of the first byte they begin with.
const LONGEST_FIELD: usize = 56;

const MOST_FIELDS: usize = 64;

// 28 bits say so many volumes, so many of them below zero.
const VOLUMES: u32 = 268435456;

const VOLUMES_BELOW_ZERO: u32 = 134217728;

const VOLUME_SPAN: i32 = VOLUMES as i32;

const VOLUME_HALF: i32 = VOLUMES_BELOW_ZERO as i32;

const VOLUME_LEAST: i32 = -134217728;

// What stands at the front of packed bytes: the value, and how many bytes it takes.
#[derive(Clone, Copy)]
pub struct AtFront<T> {
    pub length: usize,
    pub value: T,
}

// What C is given of what was written at the front of a buffer: 0 beside how many bytes that are, or the refusal's number and no length.
#[repr(C)]
#[derive(Clone, Copy)]
pub struct WrittenBytes {
    pub answer: u8,
    pub length: usize,
}

impl From<Result<usize, Refusal>> for WrittenBytes {
    ghost from_gives = { λ outcome written. written ≡ written_as outcome };

    fn from(outcome: Result<usize, Refusal>) -> WrittenBytes {
        match outcome {
            Ok(length) => WrittenBytes { answer: 0, length },
            Err(refusal) => WrittenBytes {
                answer: refusal.into(),
                length: 0,
            },
        }
    }
}

// A width, at most 32.
fn narrowed(width: u8) -> usize
    ensures { result ≡ narrow width }
{
    (width as usize).min(WIDEST_FIELD)
}

// How many fields a call takes of two lists, at most 64.
fn fewest_of(a: usize, b: usize) -> usize
    ensures { result ≡ fewest a b }
{
    MOST_FIELDS.min(a).min(b)
}

// The field of `width` bits, at most 32, from bit `at` on.
pub fn read_field(src: &[u8], at: u32, width: u8) -> u32
    ensures { result ≡ field_at src.now at (narrow width) }
{
    let w = narrowed(width);
    whole_bytes::read_bits(src, at as usize, w)
}

// The same of at most 56 bits, so that fields which stand together are read at once.
pub fn read_long(src: &[u8], at: u32, width: u8) -> u64
    ensures { result ≡ field_at src.now at (min width 56) }
{
    let w = (width as usize).min(LONGEST_FIELD);
    whole_bytes::read_long(src, at as usize, w)
}

// The field of `width` bits, at most 32, from bit `at` on made `value`.
pub fn write_field(dst: &mut [u8], at: u32, width: u8, value: u32)
    ensures { dst.new ≡ set_field dst.old at (narrow width) value }
{
    let w = narrowed(width);
    whole_bytes::write_bits(dst, at as usize, w, value);
}

// The fields of these widths from bit `at` on, one after the other.
pub fn read_fields(src: &[u8], at: u32, widths: &[u8], out: &mut [u32])
    ensures { out.new ≡ read_into src.now at widths.now out.old }
{
    let n = fewest_of(widths.len(), out.len());
    let mut p = at as usize;
    for (k, width) in widths[..n].iter().enumerate() {
        let w = narrowed(*width);
        out[k] = whole_bytes::read_bits(src, p, w);
        p += w;
    }
}

// The fields of these widths from bit `at` on made `values`.
pub fn write_fields(dst: &mut [u8], at: u32, widths: &[u8], values: &[u32])
    ensures { dst.new ≡ write_from dst.old at widths.now values.now }
{
    let n = fewest_of(widths.len(), values.len());
    let mut p = at as usize;
    for (k, width) in widths[..n].iter().enumerate() {
        let w = narrowed(*width);
        whole_bytes::write_bits(dst, p, w, values[k]);
        p += w;
    }
}

// The whole number that the 28 low bits of v say in two's complement.
pub fn volume_of_bits(v: u32) -> i32
    ensures { result ≡ signed_of 27 (v % 268435456) }
{
    ((v % VOLUMES + VOLUMES_BELOW_ZERO) % VOLUMES) as i32 - VOLUME_HALF
}

// A whole number that has room in 28 bits. No branch.
pub fn volume_fits(z: i32) -> bool
    ensures { result ≡ fits_signed 27 z }
{
    (VOLUME_LEAST <= z) & (z < VOLUME_HALF)
}

// The 28 bits that say a whole number that has room in them.
fn bits_of_fitting(z: i32) -> u32
    requires { mag z < 2 ^ 27 }
    ensures { result ≡ bits_of 27 z }
{
    if z < 0 {
        (z + VOLUME_SPAN) as u32
    } else {
        z as u32
    }
}

// The 28 bits that say z in two's complement; 0 where z has no room in them.
pub fn bits_of_volume(z: i32) -> u32
    ensures { result ≡ volume_bits z }
{
    if volume_fits(z) {
        bits_of_fitting(z)
    } else {
        0
    }
}
