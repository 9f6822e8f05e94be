// Words and decimal numbers as ASCII bytes in a lent buffer, from a place `at` on. Each answers the place after its text; where there is no room for the
// whole of it, nothing is written and the place stays. The buffer and the place are two parameters: a struct that holds the `&mut` needs in each method a
// clause that it is still the same loan.
#![tactic(auto)]

ghost use Rattle.std.specs.Prelude.{◌≡◌, ◌+◌, ◌%◌, nat_abs, length};
ghost use Rattle.meaning.specs.Decimals.{decimal};
ghost use Rattle.decimals.specs.Texts.{has_room, Put};

const ZERO: u8 = b'0';

// Whether a buffer of this size has so many bytes from `at` on. The sum of the two may not fit, so the machine subtracts.
pub fn has_room(size: usize, at: usize, bytes: usize) -> bool
    ensures { result ≡ has_room size at bytes }
{
    at <= size && bytes <= size - at
}

// Writes the bytes of a word.
pub fn put_word(out: &mut [u8], at: usize, word: &[u8]) -> usize
    ensures { Put out.old at word.now out.new result }
{
    if !has_room(out.len(), at, word.len()) {
        return at;
    }
    let after = at + word.len();
    out[at..after].copy_from_slice(word);
    after
}

// How many decimal digits a number has.
fn digit_count(number: u64) -> usize
    ensures { result ≡ length (decimal number) }
{
    number.checked_ilog10().unwrap_or(0) as usize + 1
}

// The last digit of a number, in ASCII.
pub fn last_digit(number: u64) -> u8
    ensures { result ≡ 48 + number % 10 }
{
    ZERO + (number % 10) as u8
}

// Writes a number in decimal. The digits are found from the last one on, so that is where the writing starts.
pub fn put_decimal(out: &mut [u8], at: usize, number: u64) -> usize
    ensures { Put out.old at (decimal number) out.new result }
{
    let count = digit_count(number);
    if !has_room(out.len(), at, count) {
        return at;
    }
    let after = at + count;
    let mut rest = number;
    for place in (at..after).rev() {
        out[place] = last_digit(rest);
        rest /= 10;
    }
    after
}

// The size of a number, whatever its sign.
pub fn size(x: i64) -> u64
    ensures { result ≡ nat_abs x }
{
    x.unsigned_abs()
}
