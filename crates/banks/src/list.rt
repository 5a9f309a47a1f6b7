ghost use Rattle.std.specs.Prelude.{map};
ghost use Rattle.banks.specs.Listing.{all_tables, all_bounded};
ghost use Rattle.vaults.specs.Sites.{Site};

use edges::{Change, Edge};
use links::Link;
use refusals::BankFault;
use stores::Store;
use vaults::{Bank, Load, Vault};

/// A bank whose vaults stand in a list, each as the bank of one vault. They are of one type, in which
/// `Either` lets their makes differ; how many they are is known when the list is made, and not from its type.
#[derive(Drop)]
pub struct VaultList<L, S> {
    pub vaults: Vec<(Vault<L, S>, ())>,
}

#[tactic(auto, using(crate::proofs::Listed::in_list))]
impl<L: Link, S: Store> Bank for VaultList<L, S> {
    ghost sites = { λ b. map (λ v. record { waiting = L.Link.waiting v.0.link; link_limit = L.Link.limit v.0.link; table = S.Reader.edges v.0.store; store_limit = S.Store.limit v.0.store }) b.vaults.items };

    ghost tables = { λ b. all_tables _ (λ v. S.Reader.table v.0.store) b.vaults.items };

    ghost bounded = { λ b. all_bounded _ (λ v. (L.Link.bounded v.0.link, S.Store.bounded v.0.store)) b.vaults.items };

    fn has(&self, vault: usize) -> bool {
        vault < self.vaults.len()
    }

    fn send(&mut self, vault: usize, message: Change) -> Result<(), BankFault> {
        match self.vaults.get_mut(vault) {
            Some(one) => one.send(0, message),
            None => Err(BankFault::NoVault),
        }
    }

    fn head(&self, vault: usize) -> Option<Change> {
        self.vaults.get(vault)?.head(0)
    }

    fn strike(&mut self, vault: usize) -> Result<(), BankFault> {
        match self.vaults.get_mut(vault) {
            Some(one) => one.strike(0),
            None => Err(BankFault::NoVault),
        }
    }

    fn put(&mut self, vault: usize, edge: Edge) -> Result<(), BankFault> {
        match self.vaults.get_mut(vault) {
            Some(one) => one.put(0, edge),
            None => Err(BankFault::NoVault),
        }
    }

    fn drop(&mut self, vault: usize, edge: Edge) -> Result<(), BankFault> {
        match self.vaults.get_mut(vault) {
            Some(one) => one.drop(0, edge),
            None => Err(BankFault::NoVault),
        }
    }

    fn holds(&self, vault: usize, edge: Edge) -> bool {
        match self.vaults.get(vault) {
            Some(one) => one.holds(0, edge),
            None => false,
        }
    }

    fn load(&self, vault: usize) -> Load {
        match self.vaults.get(vault) {
            Some(one) => one.load(0),
            None => ().load(0),
        }
    }
}
