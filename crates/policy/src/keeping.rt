ghost use Rattle.std.specs.Prelude.{◌≡◌, ℕ, false, ◌&&◌, ◌||◌, ◌==◌, nat_lt};
ghost use Rattle.edges.specs.Edges.{is_user_privilege};
ghost use Rattle.policy.specs.VaultSets.{has_vault};

use crate::vault_set::VaultSet;
use edges::Kind;

/// For each user privilege the vaults that keep it.
#[derive(Drop)]
pub struct Keeping {
    pub(crate) sets: [VaultSet; 128],
}

impl Keeping {
    ghost use Rattle.policy.specs.Keepings.{keeps};

    /// Nothing is kept yet.
    pub fn new() -> Keeping
        ensures { (k p : ℕ) → keeps result k p ≡ false }
    {
        Keeping {
            sets: [VaultSet::none(); 128],
        }
    }

    /// The vaults that keep a privilege; none where it is no user privilege.
    pub fn of(&self, privilege: u16) -> VaultSet
        ensures { (k : ℕ) → has_vault result k ≡ keeps self.now k privilege }
    {
        if !Kind::UserPrivilege.has(privilege) {
            return VaultSet::none();
        }
        self.sets[usize::from(privilege - 128)]
    }

    /// Has one vault more keep a privilege, if that is a user privilege and the vault one of eight.
    pub fn keep(&mut self, vault: usize, privilege: u16)
        ensures { (k p : ℕ) → keeps self.new k p ≡ (keeps self.old k p || (p == privilege && is_user_privilege p && (k == vault && nat_lt k 8))) }
    {
        if Kind::UserPrivilege.has(privilege) {
            let place = usize::from(privilege - 128);
            self.sets[place] = self.sets[place].union(VaultSet::only(vault));
        }
    }
}
