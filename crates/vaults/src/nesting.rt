ghost use Rattle.std.specs.Prelude.{[], ◌∷◌};
ghost use Rattle.vaults.specs.Sites.{Site};

use crate::bank::{Bank, Load};
use crate::vault::Vault;
use edges::{Change, Edge};
use links::Link;
use refusals::BankFault;
use stores::{Reader, Store};

// The bank without vaults.
impl Bank for () {
    ghost sites = { λ _. [] };

    ghost tables = { λ _. tt };

    ghost bounded = { λ _. tt };

    fn has(&self, vault: usize) -> bool {
        false
    }

    fn send(&mut self, vault: usize, message: Change) -> Result<(), BankFault> {
        Err(BankFault::NoVault)
    }

    fn head(&self, vault: usize) -> Option<Change> {
        None
    }

    fn strike(&mut self, vault: usize) -> Result<(), BankFault> {
        Err(BankFault::NoVault)
    }

    fn put(&mut self, vault: usize, edge: Edge) -> Result<(), BankFault> {
        Err(BankFault::NoVault)
    }

    fn drop(&mut self, vault: usize, edge: Edge) -> Result<(), BankFault> {
        Err(BankFault::NoVault)
    }

    fn holds(&self, vault: usize, edge: Edge) -> bool {
        false
    }

    fn load(&self, vault: usize) -> Load {
        Load {
            waiting: 0,
            link_limit: 0,
            held: 0,
            store_limit: 0,
        }
    }
}

// Vault 0, and the bank of the others. Each call goes on to the others by itself: one function that
// did it for all would take a closure from each, of another type.
impl<L: Link, S: Store, B: Bank> Bank for (Vault<L, S>, B) {
    ghost sites = { λ b. record { waiting = L.Link.waiting b.0.link; link_limit = L.Link.limit b.0.link; table = S.Reader.edges b.0.store; store_limit = S.Store.limit b.0.store } ∷ B.Bank.sites b.1 };

    ghost tables = { λ b. (S.Reader.table b.0.store, B.Bank.tables b.1) };

    ghost bounded = { λ b. (L.Link.bounded b.0.link, S.Store.bounded b.0.store, B.Bank.bounded b.1) };

    fn has(&self, vault: usize) -> bool {
        vault == 0 || self.1.has(vault - 1)
    }

    fn send(&mut self, vault: usize, message: Change) -> Result<(), BankFault> {
        if vault > 0 {
            return self.1.send(vault - 1, message);
        }
        self.0.link.send(message)?;
        Ok(())
    }

    fn head(&self, vault: usize) -> Option<Change> {
        if vault > 0 {
            return self.1.head(vault - 1);
        }
        self.0.link.head()
    }

    fn strike(&mut self, vault: usize) -> Result<(), BankFault> {
        if vault > 0 {
            return self.1.strike(vault - 1);
        }
        self.0.link.strike();
        Ok(())
    }

    fn put(&mut self, vault: usize, edge: Edge) -> Result<(), BankFault> {
        if vault > 0 {
            return self.1.put(vault - 1, edge);
        }
        self.0.store.put(edge)?;
        Ok(())
    }

    fn drop(&mut self, vault: usize, edge: Edge) -> Result<(), BankFault> {
        if vault > 0 {
            return self.1.drop(vault - 1, edge);
        }
        self.0.store.drop(edge);
        Ok(())
    }

    fn holds(&self, vault: usize, edge: Edge) -> bool {
        if vault > 0 {
            return self.1.holds(vault - 1, edge);
        }
        self.0.store.holds(edge)
    }

    fn load(&self, vault: usize) -> Load {
        if vault > 0 {
            return self.1.load(vault - 1);
        }
        Load {
            waiting: self.0.link.count(),
            link_limit: self.0.link.limit(),
            held: self.0.store.count(),
            store_limit: self.0.store.limit(),
        }
    }
}
