// A field read and written by whole bytes: the bytes that hold it are joined to one word, the first of them at its top, and the field is cut out of
// the word by shift and mask. To write it, the word is made with the field in it and cut into its bytes again, so that the bytes at both ends keep
// their other bits. A byte past the end is 0, and writing one changes nothing. A place and a width stay two parameters, with what they owe: a struct of
// the two would be made anew for each field.
ghost use Rattle.std.specs.Prelude.{◌≡◌, ◌+◌, ◌*◌, ◌/◌, ◌%◌, ◌≤◌, ◌<◌, ◌^◌, length, get_or, set};
ghost use Rattle.words.specs.Fields.{field_at, set_field};

// `low`, of `bits` bits, behind `high`.
fn join(high: u64, low: u64, bits: u32) -> u64
    requires { (bits < 64) × (low < 2 ^ bits) × (high * 2 ^ bits + low < 2 ^ 64) }
    ensures { result ≡ high * 2 ^ bits + low }
{
    high << bits | low
}

// The `width` bits of a word that have `below` bits behind them.
fn cut(word: u64, below: u32, width: u32) -> u64
    requires { (below < 64) × (width < 64) }
    ensures { result ≡ word / 2 ^ below % 2 ^ width }
{
    (word >> below) & ((1u64 << width) - 1)
}

// Byte i, 0 past the end.
fn byte(src: &[u8], i: usize) -> u8
    ensures { result ≡ get_or src.now i 0 }
{
    src.get(i).copied().unwrap_or(0)
}

// `count` bytes from byte `first` on, joined.
fn joined(src: &[u8], first: usize, count: usize) -> u64
    requires { (count ≤ 8) × (first + 8 < 2 ^ 64) }
    ensures { result ≡ field_at src.now (first * 8) (count * 8) }
{
    let mut word: u64 = 0;
    for n in 0..count {
        word = join(word, byte(src, first + n) as u64, 8);
    }
    word
}

// A field of at most 56 bits, from bit `at` on: the bytes that hold it joined, and the field cut out of them.
fn cut_out(src: &[u8], at: usize, width: usize) -> u64
    requires { (width ≤ 56) × (at + width < 2 ^ 64) }
    ensures { result ≡ field_at src.now at width }
{
    let lead = at % 8;
    let count = (lead + width + 7) / 8;
    let word = joined(src, at / 8, count);
    cut(word, (count * 8 - lead - width) as u32, width as u32)
}

// The field of `width` bits from bit `at` on.
pub(crate) fn read_bits(src: &[u8], at: usize, width: usize) -> u32
    requires { (width ≤ 32) × (at + width < 2 ^ 64) }
    ensures { result ≡ field_at src.now at width }
{
    cut_out(src, at, width) as u32
}

// Eight bytes that are there, joined. There is no test for each, so that the machine reads them at once.
fn eight_bytes(src: &[u8], first: usize) -> u64
    requires { first + 8 ≤ length src.now }
    ensures { result ≡ field_at src.now (first * 8) 64 }
{
    u64::from_be_bytes(src[first..first + 8].try_into().unwrap())
}

// The field of `width` bits, at most 56, from bit `at` on. The eight bytes that end with its last one hold it too, and in a message they are there for
// every entry.
pub(crate) fn read_long(src: &[u8], at: usize, width: usize) -> u64
    requires { (width ≤ 56) × (at + width + 7 < 2 ^ 64) }
    ensures { result ≡ field_at src.now at width }
{
    let end = (at + width + 7) / 8;
    if (8 <= end) & (end <= src.len()) {
        let word = eight_bytes(src, end - 8);
        return cut(word, (end * 8 - at - width) as u32, width as u32);
    }
    cut_out(src, at, width)
}

// The word with the `width` bits that have `below` bits behind them made those of `value`.
fn made_in(word: u64, below: u32, width: u32, value: u32) -> u64
    requires { below + width < 64 }
    ensures { result ≡ (word / 2 ^ (below + width) * 2 ^ width + value % 2 ^ width) * 2 ^ below + word % 2 ^ below }
{
    let before = word >> (below + width);
    let field = cut(value as u64, 0, width);
    let behind = cut(word, 0, below);
    join(join(before, field, width), behind, below)
}

// Byte i made x; nothing past the end. By its index: of what is written through the library's `get_mut` of a slice a proof knows nothing.
fn put_byte(dst: &mut [u8], i: usize, x: u8)
    ensures { dst.new ≡ set dst.old i x }
{
    if i < dst.len() {
        dst[i] = x;
    }
}

// `count` bytes from byte `first` on made those that a word is cut into.
fn put_bytes(dst: &mut [u8], first: usize, count: usize, word: u64)
    requires { (count ≤ 8) × (first + 8 < 2 ^ 64) }
    ensures { dst.new ≡ set_field dst.old (first * 8) (count * 8) word }
{
    for n in 0..count {
        let below = ((count - 1 - n) * 8) as u32;
        put_byte(dst, first + n, cut(word, below, 8) as u8);
    }
}

// The field of `width` bits from bit `at` on made `value`.
pub(crate) fn write_bits(dst: &mut [u8], at: usize, width: usize, value: u32)
    requires { (width ≤ 32) × (at + width < 2 ^ 64) }
    ensures { dst.new ≡ set_field dst.old at width value }
{
    let first = at / 8;
    let lead = at % 8;
    let count = (lead + width + 7) / 8;
    let below = (count * 8 - lead - width) as u32;
    let word = joined(dst, first, count);
    put_bytes(dst, first, count, made_in(word, below, width as u32, value));
}
