ghost use Rattle.std.specs.Prelude.{◌≡◌};
ghost use Rattle.edges.specs.declared.edges.Change.TheVariants.{Add, Remove};
ghost use Rattle.edges.specs.Edges.{edge};

use edges::{Change, Edge};

/// The role chain 64 to 65 to the privilege 128, and the user 2 in role 64.
pub const CHAIN: Edge = Edge { from: 64, to: 65 };

pub const GRANT: Edge = Edge { from: 65, to: 128 };

pub const MEMBER: Edge = Edge { from: 2, to: 64 };

/// Two numbers as a pair.
pub fn pair(from: u16, to: u16) -> Edge
    ensures { result ≡ edge from to }
{
    Edge { from, to }
}

/// The addition of a pair.
pub fn adding(from: u16, to: u16) -> Change
    ensures { result ≡ Add (edge from to) }
{
    Change::Add(pair(from, to))
}

/// The removal of a pair.
pub fn removing(from: u16, to: u16) -> Change
    ensures { result ≡ Remove (edge from to) }
{
    Change::Remove(pair(from, to))
}
