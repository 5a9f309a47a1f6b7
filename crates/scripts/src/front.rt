ghost use Rattle.std.specs.Prelude.{◌≡◌, ◌++◌, ◌∷◌, [], take};

use arrayvec::ArrayVec;
use std::marker::Model;

/// The bytes of a line that its answer can hang on: the first 129, of which the last tells only that the
/// line is too long. It means the list of them.
#[derive(Drop)]
pub struct Front {
    bytes: ArrayVec<u8, 129>,
}

impl Model for Front {
    ghost use Rattle.std.specs.Prelude.{List, ℕ, length, ◌≤◌};

    ghost Value = { List ℕ };

    ghost view = { λ f. f.bytes.items };

    ghost invariant = { λ f. length f.bytes.items ≤ 129 };
}

impl Front {
    pub fn new() -> Front
        ensures { result ≡ [] }
    {
        Front {
            bytes: ArrayVec::new(),
        }
    }

    /// One byte more of the line.
    #[tactic(auto, using(crate::proofs::Fronts::one_more, crate::proofs::Fronts::full))]
    pub fn push(&mut self, byte: u8)
        ensures { self.new ≡ take 129 (self.old ++ (byte ∷ [])) }
    {
        if !self.bytes.is_full() {
            self.bytes.push(byte);
        }
    }

    /// For the next line.
    pub fn clear(&mut self)
        ensures { self.new ≡ [] }
    {
        self.bytes.clear();
    }

    pub fn text(&self) -> &[u8]
        ensures { result.now ≡ self.now }
    {
        &self.bytes
    }
}
