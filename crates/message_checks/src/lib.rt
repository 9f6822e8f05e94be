// What can be wrong with a message, where its book is sound or the question does not depend on it.
#![tactic(auto)]

pub mod notifications; // notifications.rt: refusals 2 to 14
pub mod nullifications; // nullifications.rt: refusals 2, 15 and 9

ghost use Rattle.std.specs.Prelude.{◌≡◌};

use limits::refusals::Refusal;

// A refusal with its place: of 10 and 11 the first entry at fault, counted from 0; of every other 0 (02, A3).
#[derive(Clone, Copy)]
pub struct Fault {
    pub refusal: Refusal,
    pub place: u8,
}

// A refusal that carries no place.
impl From<Refusal> for Fault {
    ghost from_gives = { λ refusal fault. fault ≡ record { refusal = refusal; place = 0 } };

    fn from(refusal: Refusal) -> Fault {
        Fault { refusal, place: 0 }
    }
}
