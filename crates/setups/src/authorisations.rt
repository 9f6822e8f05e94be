// Who writes which side: "agent 1 writes side 1, agent 2 side 2"; an agent that is both writes both. The row is handed over, since reading one out of a
// book copies all of them. Two functions stay, since one would take the side as well, and a branch on it is longer than the two.
ghost use Rattle.std.specs.Prelude.{◌≡◌};
ghost use Rattle.words.specs.Tests.{◌=?◌};

use crate::Authorisation;

pub fn writes_side1(row: Authorisation, agent: u8) -> bool
    ensures { result ≡ agent =? row.agent1 }
{
    agent == row.agent1
}

pub fn writes_side2(row: Authorisation, agent: u8) -> bool
    ensures { result ≡ agent =? row.agent2 }
{
    agent == row.agent2
}
