ghost use Rattle.std.specs.Prelude.{◌≡◌, ℕ, false, not, ◌&&◌, ◌||◌, ◌==◌, nat_lt};
ghost use Rattle.policy.specs.VaultSets.{has_vault};

/// A set of the vaults numbered from 0 to 7: bit k is for vault k.
#[derive(Clone, Copy, PartialEq, Eq)]
pub struct VaultSet {
    pub bits: u8,
}

impl VaultSet {
    /// The set without vaults.
    pub fn none() -> VaultSet
        ensures { (k : ℕ) → has_vault result k ≡ false }
    {
        VaultSet { bits: 0 }
    }

    /// The set of one vault; none where the number is beyond 7.
    #[tactic(auto, using(crate::proofs::VaultBits::has_only))]
    pub fn only(vault: usize) -> VaultSet
        ensures { (k : ℕ) → has_vault result k ≡ (k == vault && nat_lt k 8) }
    {
        if vault < 8 {
            VaultSet { bits: 1u8 << vault }
        } else {
            VaultSet::none()
        }
    }

    /// Whether a vault is one of the set.
    pub fn has(self, vault: usize) -> bool
        ensures { result ≡ has_vault self vault }
    {
        vault < 8 && (self.bits >> vault) % 2 == 1
    }

    /// The vaults of either set.
    #[tactic(auto, using(crate::proofs::VaultBits::has_union))]
    pub fn union(self, other: VaultSet) -> VaultSet
        ensures { (k : ℕ) → has_vault result k ≡ (has_vault self k || has_vault other k) }
    {
        VaultSet {
            bits: self.bits | other.bits,
        }
    }

    /// The vaults of this set that another lacks.
    #[tactic(auto, using(crate::proofs::VaultBits::has_without))]
    pub fn without(self, other: VaultSet) -> VaultSet
        ensures { (k : ℕ) → has_vault result k ≡ (has_vault self k && not (has_vault other k)) }
    {
        VaultSet {
            bits: self.bits & !other.bits,
        }
    }
}
