ghost use Rattle.std.specs.Prelude.{◌≡◌, ℕ, ◌++◌, ◌∷◌, ◌%◌, [], List, OnOk, OnErr, IfOk, replicate};
ghost use Rattle.banks.specs.Making.{empty_site};
ghost use Rattle.banks.specs.Makes.{makes_in_turn};

use std::alloc::{AllocError, Global};
use vaults::Bank;

/// A bank that gains one empty vault at a time, of one of several makes, which take turns.
pub trait GrowingBank: Bank {
    // How many makes there are, and of which of them, numbered from 0, each vault is.
    ghost count: { ℕ };

    ghost makes: { Self → List ℕ };

    fn empty(alloc: Global) -> Self
        ensures sites { Self.Bank.sites result ≡ [] }
        ensures makes { makes result ≡ [] };

    /// One vault more, with these limits, of the make whose turn it is. Without memory the bank is as it
    /// was.
    fn grow(
        &mut self,
        alloc: Global,
        turn: usize,
        link: usize,
        store: usize,
    ) -> Result<(), AllocError>
        ensures sites { OnOk result
            (Self.Bank.sites self.new ≡ Self.Bank.sites self.old ++ (empty_site link store ∷ [])) }
        ensures make { OnOk result (makes self.new ≡ makes self.old ++ (turn % count ∷ [])) }
        ensures same_sites { OnErr result (Self.Bank.sites self.new ≡ Self.Bank.sites self.old) }
        ensures same_makes { OnErr result (makes self.new ≡ makes self.old) };
}

/// A bank of so many empty vaults, with these limits; the first is of the make whose turn is given.
pub fn grown<B: GrowingBank + Drop>(
    alloc: Global,
    turn: usize,
    count: usize,
    link: usize,
    store: usize,
) -> Result<B, AllocError>
    ensures sites { IfOk result (λ b. B.Bank.sites b ≡ replicate count (empty_site link store)) }
    ensures makes { IfOk result (λ b. B.makes b ≡ makes_in_turn B.count turn count) }
{
    let mut bank = B::empty(alloc);
    for place in 0..count {
        bank.grow(alloc, turn.wrapping_add(place), link, store)?;
    }
    Ok(bank)
}
