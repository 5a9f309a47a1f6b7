ghost use Rattle.vaults.specs.Sites.{site_at};
ghost use Rattle.vaults.specs.Tables.{table_at};

use crate::bank::Bank;
use edges::Edge;
use stores::Reader;

/// The table of one vault of a bank, to be read where it stands; that of a vault which is not there is
/// empty.
#[derive(Clone, Copy)]
pub struct VaultTable<'a, B: Bank> {
    pub bank: &'a B,
    pub vault: usize,
}

impl<'a, B: Bank> Reader for VaultTable<'a, B> {
    ghost edges = { λ t. (site_at (B.Bank.sites t.bank.now) t.vault).table };

    ghost table = { λ t. table_at (B.Bank.sites t.bank.now) (B.Bank.tables t.bank.now) t.vault };

    fn holds(&self, edge: Edge) -> bool {
        self.bank.holds(self.vault, edge)
    }

    fn count(&self) -> usize {
        self.bank.load(self.vault).held
    }
}
