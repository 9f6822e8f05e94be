// The input at hand, in a lent buffer.
ghost use Rattle.sheet_parts.specs.Promises.{Keeps};

// Brings what is left of the bytes at hand to the front of the buffer, and answers how many that are.
pub fn keep(input: &mut [u8], used: usize, have: usize) -> usize
    ensures { Keeps used have input.old input.new result }
{
    let end = have.min(input.len());
    let from = used.min(end);
    input.copy_within(from..end, 0);
    end - from
}
