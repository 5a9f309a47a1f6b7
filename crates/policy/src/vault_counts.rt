ghost use Rattle.std.specs.Prelude.{◌≡◌, ℕ, ◌+◌, ◌-◌, ◌<◌, cond};
ghost use Rattle.policy.specs.VaultSets.{has_vault};
ghost use Rattle.policy.specs.VaultCounts.{count_at};

use crate::vault_set::VaultSet;

/// A number for each of the vaults from 0 to 7.
#[derive(Clone, Copy)]
pub struct VaultCounts {
    pub counts: [usize; 8],
}

impl VaultCounts {
    pub(crate) fn none() -> VaultCounts
        ensures { (k : ℕ) → count_at result k ≡ 0 }
    {
        VaultCounts { counts: [0; 8] }
    }

    /// That of a vault; 0 where there is no such vault.
    pub fn of(&self, vault: usize) -> usize
        ensures { result ≡ count_at self.now vault }
    {
        if vault < 8 { self.counts[vault] } else { 0 }
    }

    // One more for each vault of a set.
    pub(crate) fn rise(&mut self, vaults: VaultSet)
        requires { (k : ℕ) → count_at self.old k < 1024 }
        ensures { (k : ℕ) → count_at self.new k ≡ count_at self.old k + cond (has_vault vaults k) 1 0 }
    {
        for vault in 0..8usize {
            if vaults.has(vault) {
                self.counts[vault] += 1;
            }
        }
    }

    // One fewer for each vault of a set that has any.
    pub(crate) fn fall(&mut self, vaults: VaultSet)
        ensures { (k : ℕ) → count_at self.new k ≡ count_at self.old k - cond (has_vault vaults k) 1 0 }
    {
        for vault in 0..8usize {
            if vaults.has(vault) {
                self.counts[vault] = self.counts[vault].saturating_sub(1);
            }
        }
    }
}
