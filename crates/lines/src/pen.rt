ghost use Rattle.std.specs.Prelude.{◌≡◌, ◌≤◌, ◌∷◌, ◌++◌, [], length, drop};
ghost use Rattle.lines.specs.Adding.{Adds};

use arrayvec::ArrayVec;
use std::marker::Model;

// The bytes of a line that is being written, at most 128. It means the list of them.
#[derive(Drop)]
pub(crate) struct Pen {
    bytes: ArrayVec<u8, 128>,
}

impl Model for Pen {
    ghost use Rattle.std.specs.Prelude.{List, ℕ, length, ◌≤◌};

    ghost Value = { List ℕ };

    ghost view = { λ p. p.bytes.items };

    ghost invariant = { λ p. length p.bytes.items ≤ 128 };
}

impl Pen {
    pub(crate) fn new() -> Pen
        ensures { result ≡ [] }
    {
        Pen {
            bytes: ArrayVec::new(),
        }
    }

    // Writes a byte behind the others, where there is room.
    pub(crate) fn push(&mut self, byte: u8)
        ensures { Adds self.old (byte ∷ []) self.new }
    {
        if !self.bytes.is_full() {
            self.bytes.push(byte);
        }
    }

    // Puts the bytes at the start of `out`, and tells how many they are.
    pub(crate) fn copy_to(&self, out: &mut [u8]) -> usize
        requires { 128 ≤ length out.old }
        ensures long { result ≡ length self.now }
        ensures copied { out.new ≡ self.now ++ drop result out.old }
    {
        let length = self.bytes.len();
        out[..length].copy_from_slice(&self.bytes);
        length
    }
}
