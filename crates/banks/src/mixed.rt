ghost use Rattle.std.specs.Prelude.{◌≡◌, ◌/◌, ◌%◌, [], ◌∷◌, map, IfOk};
ghost use Rattle.links.specs.Links.{link_limit};
ghost use Rattle.stores.specs.Stores.{store_limit};
ghost use Rattle.banks.specs.Making.{empty_site};
ghost use Rattle.banks.specs.Makes.{make_number, vault_make};

use crate::either::Either;
use crate::growing::GrowingBank;
use crate::list::VaultList;
use links::{Link, NewLink};
use std::alloc::{AllocError, Global};
use stores::{NewStore, Reader, Store};
use vaults::{Bank, Vault};

/// A vault whose link and whose store are each of one of two makes.
pub type MixedVault<L, M, S, T> = Vault<Either<L, M>, Either<S, T>>;

/// A bank of such vaults.
pub type MixedList<L, M, S, T> = VaultList<Either<L, M>, Either<S, T>>;

// An empty link, of the first make where the turn is even.
fn link_of<L: NewLink + Drop, M: NewLink + Drop>(
    alloc: Global,
    turn: usize,
    limit: usize,
) -> Result<Either<L, M>, AllocError>
    ensures waiting { IfOk result (λ l. ⟦<Either<L, M> as Link>⟧.waiting l ≡ []) }
    ensures limit { IfOk result (λ l. ⟦<Either<L, M> as Link>⟧.limit l ≡ link_limit limit) }
    ensures make { IfOk result (λ l. make_number l ≡ turn % 2) }
{
    Ok(match turn % 2 {
        0 => Either::First(L::new(alloc, limit)?),
        _ => Either::Second(M::new(alloc, limit)?),
    })
}

// An empty store, of the first make where the turn is even.
fn store_of<S: NewStore + Drop, T: NewStore + Drop>(
    alloc: Global,
    turn: usize,
    limit: usize,
) -> Result<Either<S, T>, AllocError>
    ensures edges { IfOk result (λ s. ⟦<Either<S, T> as Reader>⟧.edges s ≡ []) }
    ensures limit { IfOk result (λ s. ⟦<Either<S, T> as Store>⟧.limit s ≡ store_limit limit) }
    ensures make { IfOk result (λ s. make_number s ≡ turn % 2) }
{
    Ok(match turn % 2 {
        0 => Either::First(S::new(alloc, limit)?),
        _ => Either::Second(T::new(alloc, limit)?),
    })
}

// An empty vault of one of the four pairs of makes, which take turns.
fn vault_of<L: NewLink + Drop, M: NewLink + Drop, S: NewStore + Drop, T: NewStore + Drop>(
    alloc: Global,
    turn: usize,
    link: usize,
    store: usize,
) -> Result<MixedVault<L, M, S, T>, AllocError>
    ensures site { IfOk result (λ v.
        ⟦<(Vault<Either<L, M>, Either<S, T>>, ()) as Bank>⟧.sites (v, tt) ≡ empty_site link store ∷ []) }
    ensures make { IfOk result (λ v. vault_make v ≡ turn % 4) }
{
    Ok(Vault {
        link: link_of(alloc, turn, link)?,
        store: store_of(alloc, turn / 2, store)?,
    })
}

impl<L: NewLink + Drop, M: NewLink + Drop, S: NewStore + Drop, T: NewStore + Drop> GrowingBank
    for MixedList<L, M, S, T> {
    ghost count = { 4 };

    ghost makes = { λ b. map (λ v. vault_make v.0) b.vaults.items };

    fn empty(alloc: Global) -> MixedList<L, M, S, T> {
        VaultList {
            vaults: Vec::new(alloc),
        }
    }

    fn grow(
        &mut self,
        alloc: Global,
        turn: usize,
        link: usize,
        store: usize,
    ) -> Result<(), AllocError> {
        self.vaults.push((vault_of(alloc, turn, link, store)?, ()))?;
        Ok(())
    }
}
