ghost use Rattle.std.specs.Prelude.{◌≡◌};
ghost use Rattle.lines.specs.Spelling.{sign_of, sign_byte, sign_in, signed};

use edges::{Change, Edge};

// Whether an edge is to be added or to be removed.
#[derive(Clone, Copy, PartialEq, Eq)]
pub enum Sign {
    Plus,
    Minus,
}

impl Sign {
    pub fn of(byte: u8) -> Option<Sign>
        ensures { result ≡ sign_of byte }
    {
        match byte {
            b'+' => Some(Sign::Plus),
            b'-' => Some(Sign::Minus),
            _ => None,
        }
    }

    // The sign of a change.
    pub fn in_change(change: Change) -> Sign
        ensures { result ≡ sign_in change }
    {
        match change {
            Change::Add(_) => Sign::Plus,
            Change::Remove(_) => Sign::Minus,
        }
    }

    pub fn byte(self) -> u8
        ensures { result ≡ sign_byte self }
    {
        match self {
            Sign::Plus => b'+',
            Sign::Minus => b'-',
        }
    }

    // The change of an edge that it stands for.
    pub fn change(self, edge: Edge) -> Change
        ensures { result ≡ signed self edge }
    {
        match self {
            Sign::Plus => Change::Add(edge),
            Sign::Minus => Change::Remove(edge),
        }
    }
}
