ghost use Rattle.std.specs.Prelude.{◌≡◌, ◌≤◌};
ghost use Rattle.lines.specs.Spelling.{letter_byte, most, first_vertex, node_letter};

// What a number in a line is the number of: a user, a role, a user privilege or a vault. Vaults
// are not vertices, and stand in no node.
#[derive(Clone, Copy, PartialEq, Eq)]
pub enum Letter {
    User,
    Role,
    Privilege,
    Vault,
}

impl Letter {
    // The letter of a node that a byte is.
    pub fn of_node(byte: u8) -> Option<Letter>
        ensures { result ≡ node_letter byte }
    {
        match byte {
            b'u' => Some(Letter::User),
            b'r' => Some(Letter::Role),
            b'p' => Some(Letter::Privilege),
            _ => None,
        }
    }

    pub fn byte(self) -> u8
        ensures { result ≡ letter_byte self }
    {
        match self {
            Letter::User => b'u',
            Letter::Role => b'r',
            Letter::Privilege => b'p',
            Letter::Vault => b'v',
        }
    }

    // The largest number that it takes.
    pub fn most(self) -> u16
        ensures value { result ≡ most self }
        ensures bound { result ≤ 127 }
    {
        match self {
            Letter::User => 63,
            Letter::Role => 63,
            Letter::Privilege => 127,
            Letter::Vault => 7,
        }
    }

    // The vertex, or the vault, with number 0.
    pub fn first(self) -> u16
        ensures value { result ≡ first_vertex self }
        ensures bound { result ≤ 128 }
    {
        match self {
            Letter::User => 0,
            Letter::Role => 64,
            Letter::Privilege => 128,
            Letter::Vault => 0,
        }
    }
}
