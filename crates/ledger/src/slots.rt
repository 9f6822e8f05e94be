// The entries of `held`, one a slot: 0 where it is unheld, and one more than the identifier that it holds.
ghost use Rattle.std.specs.Prelude.{◌≡◌, suc, ◌-◌};
ghost use Rattle.words.specs.Lists.{find};
ghost use Rattle.meaning.specs.Ledgers.{identifier_of, originator_of, slot_of, slot_for};

// An identifier is originator * 65,536 + reference.
const REFERENCES: u32 = 65536;

// The entry that holds an identifier.
pub fn entry_of(originator: u8, reference: u16) -> u32
    ensures { result ≡ suc (identifier_of originator reference) }
{
    originator as u32 * REFERENCES + reference as u32 + 1
}

// The number of the originating authorisation of the identifier that an entry holds; 0 where it holds none.
pub fn originator_of(entry: u32) -> u32
    ensures { result ≡ originator_of (entry - 1) }
{
    entry.saturating_sub(1) / REFERENCES
}

// The first slot whose entry is this one; the number of slots where none is.
fn slot_with(held: &[u32], entry: u32) -> usize
    ensures { result ≡ find entry held.now }
{
    held.iter().position(|e| *e == entry).unwrap_or(held.len())
}

// The slot that holds an identifier; the number of slots where none does.
pub fn slot_of(held: &[u32], originator: u8, reference: u16) -> usize
    ensures { result ≡ slot_of held.now (identifier_of originator reference) }
{
    slot_with(held, entry_of(originator, reference))
}

// The slot that holds an identifier or, since "a new identifier takes the lowest unheld slot", will hold it; the number of slots where there is none.
pub fn slot_for(held: &[u32], originator: u8, reference: u16) -> usize
    ensures { result ≡ slot_for held.now (identifier_of originator reference) }
{
    let own = slot_of(held, originator, reference);
    if own < held.len() {
        return own;
    }
    slot_with(held, 0)
}
