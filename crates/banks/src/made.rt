ghost use Rattle.std.specs.Prelude.{◌≡◌, ℕ, suc, List, IfOk, replicate};
ghost use Rattle.banks.specs.Making.{empty_site};

use links::NewLink;
use std::alloc::{AllocError, Global};
use stores::NewStore;
use vaults::{Bank, Vault};

/// A bank that can be made whole: its type says how many vaults it has and of which makes they are, and two
/// numbers say the limits of every link and of every store.
pub trait NewBank: Bank {
    ghost count: { ℕ };

    /// Such a bank, empty. A limit that no link or no store may have is 0.
    fn new(alloc: Global, link: usize, store: usize) -> Result<Self, AllocError>
        ensures { IfOk result (λ b. Self.Bank.sites b ≡ replicate count (empty_site link store)) };
}

impl NewBank for () {
    ghost count = { 0 };

    fn new(_alloc: Global, _link: usize, _store: usize) -> Result<(), AllocError> {
        Ok(())
    }
}

impl<L: NewLink + Drop, S: NewStore + Drop, B: NewBank + Drop> NewBank for (Vault<L, S>, B) {
    ghost count = { suc B.NewBank.count };

    fn new(alloc: Global, link: usize, store: usize) -> Result<(Vault<L, S>, B), AllocError> {
        let first = Vault::<L, S>::new(alloc, link, store)?;
        let others = B::new(alloc, link, store)?;
        Ok((first, others))
    }
}
