// A notification's kind, and the numbers of an authorisation's type.
ghost use Rattle.std.specs.Prelude.{◌≡◌};
ghost use Rattle.limits.specs.Kinds.{number_of_kind, number_found};

// Its number is ours (docs/DECISIONS.md, 16).
#[derive(Clone, Copy, PartialEq, Eq)]
pub enum Kind {
    Initial = 1,
    Replacement = 2,
    Additional = 3,
}

impl From<Kind> for u8 {
    ghost from_gives = { λ kind number. number ≡ number_of_kind kind };

    fn from(kind: Kind) -> u8 {
        kind as u8
    }
}

// The number of the kind that was found: 0 where none was.
pub fn number_found(kind: Option<Kind>) -> u8
    ensures { result ≡ number_found kind }
{
    match kind {
        None => 0,
        Some(kind) => kind.into(),
    }
}

// "0 both, 1 replacement, 2 additional". C fills the field that has the number, with any of its type, so these are no enum.
pub const ONLY_REPLACEMENTS: u8 = 1;

pub const ONLY_ADDITIONAL: u8 = 2;
