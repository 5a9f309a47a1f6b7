ghost use Rattle.std.specs.Prelude.{◌≡◌, ℕ, ◌<◌, [], List, IfOk, not, vec_len, ◌≢◌, slice_index};

use std::alloc::{AllocError, Global};
use std::marker::Model;

/// 128 rows of 256 bits, in words of 64. It means the list of its words.
#[derive(Drop)]
pub struct Words {
    words: Vec<u64>,
}

impl Model for Words {
    ghost Value = { List ℕ };

    ghost view = { λ w. w.words.items };

    ghost invariant = { λ w. vec_len w.words ≡ 512 };
}

// That a place or a cell is one of theirs is asked of each call: it is a fact about the argument.
impl Words {
    ghost use Rattle.rows.specs.Flags.{bit_at, flagged};

    // Words whose bits are all clear.
    pub(crate) fn blank(alloc: Global) -> Result<Words, AllocError>
        ensures { IfOk result (λ w. flagged w ≡ []) }
    {
        let words = vec![in alloc; 0u64; 512]?;
        Ok(Words { words })
    }

    // One of the words.
    pub(crate) fn word(&self, place: usize) -> u64
        requires { place < 512 }
        ensures { result ≡ slice_index self.now place }
    {
        self.words[place]
    }

    // One bit of the words.
    pub(crate) fn bit(&self, cell: usize) -> bool
        requires { cell < 32768 }
        ensures { result ≡ bit_at self.now cell }
    {
        (self.words[cell / 64] >> (cell % 64)) % 2 == 1
    }

    // Turns one bit of the words.
    pub(crate) fn turn(&mut self, cell: usize)
        requires { cell < 32768 }
        ensures here { bit_at self.new cell ≡ not (bit_at self.old cell) }
        ensures others { (j : ℕ) → (j ≢ cell) → bit_at self.new j ≡ bit_at self.old j }
    {
        self.words[cell / 64] ^= 1u64 << (cell % 64);
    }
}
