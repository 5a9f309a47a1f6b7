ghost use Rattle.std.specs.Prelude.{◌≡◌, ℕ, ◌<◌, length, MatchBool, MatchResult};
ghost use Rattle.vaults.specs.Sites.{site_at};
ghost use Rattle.vaults.specs.Fitness.{IsFitSite, IsFit};

use crate::bank::{Bank, Load};
use links::link;
use refusals::BankFault;
use stores::store;

// Whether a vault is empty and has limits that one may have.
fn is_fit<B: Bank>(bank: &B, vault: usize) -> bool
    ensures { MatchBool result
        (IsFitSite (site_at (B.sites bank.now) vault))
        (IsFitSite (site_at (B.sites bank.now) vault) → ⊥) }
{
    let Load {
        waiting,
        link_limit,
        held,
        store_limit,
    } = bank.load(vault);
    let empty = waiting == 0 && held == 0;
    empty && store::LIMITS.has(store_limit) && link::LIMITS.has(link_limit)
}

// Whether each of the first eight vaults is fit that are there.
fn are_fit<B: Bank>(bank: &B) -> bool
    ensures { MatchBool result
        ((v : ℕ) → v < 8 → v < length (B.sites bank.now) → IsFitSite (site_at (B.sites bank.now) v))
        (IsFit (B.sites bank.now) → ⊥) }
{
    (0..8).all(|vault| !bank.has(vault) || is_fit(bank, vault))
}

/// Whether an installation can work with a bank: 1 to 8 vaults, store limits 1 to 512, link limits 2
/// to 1024, all empty. If not, it is refused with 19.
pub fn inspect<B: Bank>(bank: &B) -> Result<(), BankFault>
    ensures { MatchResult result
        (λ _. IsFit (B.sites bank.now))
        (λ f. (f ≡ BankFault.Unfit) × (IsFit (B.sites bank.now) → ⊥)) }
{
    if bank.has(0) && !bank.has(8) && are_fit(bank) {
        Ok(())
    } else {
        Err(BankFault::Unfit)
    }
}
