// The lent tables of a book: where a side's table has a place, what it holds, and runs of places stored (meaning, Ledgers.antt).
#![tactic(auto)]

pub mod slots; // slots.rt: the identifier that a slot holds, and the slot of an identifier

ghost use Rattle.std.specs.Prelude.{◌≡◌, ◌-◌, suc, min, get_or, replicate};
ghost use Rattle.std.proofs.lemmas.List.Edits.{sets};
ghost use Rattle.meaning.specs.Ledgers.{contracts, index, stands, the_mark};

// "the mark -2,147,483,648 means nothing stands"
pub const MARK: i32 = -2147483648;

// Where a side's table has a slot's volume on the day at place d in the period at place p, both from 0. No argument is too large for the product.
pub fn place_of(slot: u8, days: u8, d: u8, p: u8) -> usize
    ensures { result ≡ index days slot d (suc p) }
{
    (slot as usize * days as usize + d as usize) * limits::PLACES_A_DAY + p as usize
}

// A place states something when it does not hold the mark.
pub fn states(v: i32) -> bool
    ensures { result ≡ stands contracts v }
{
    v != MARK
}

// What stands at a place of a side's table. Past its end it is the mark, nothing, so that no reader owes an index.
pub fn volume_at(side: &[i32], place: usize) -> i32
    ensures { result ≡ get_or side.now place the_mark }
{
    side.get(place).copied().unwrap_or(MARK)
}

// How many of `count` places from place `at` on are inside a table of this length.
fn inside(length: usize, at: usize, count: usize) -> usize
    ensures { result ≡ min count (length - at) }
{
    count.min(length.saturating_sub(at))
}

// The values stored from place `at` on, one after the other; a place past the end stores nothing. Place by place, since of `copy_from_slice` the
// compiler makes `memmove`, one name more that the archive for C would need from outside.
pub fn store_run(side: &mut [i32], at: usize, values: &[i32])
    ensures { side.new ≡ sets side.old at values.now }
{
    let n = inside(side.len(), at, values.len());
    for k in 0..n {
        let v = values[k];
        side[at + k] = v;
    }
}

// The mark stored at `count` places from place `at` on; a place past the end stores nothing.
pub fn blank_run(side: &mut [i32], at: usize, count: usize)
    ensures { side.new ≡ sets side.old at (replicate count the_mark) }
{
    let from = at.min(side.len());
    let n = inside(side.len(), from, count);
    side[from..from + n].fill(MARK);
}
