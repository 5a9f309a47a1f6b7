ghost use Rattle.std.specs.Prelude.{◌≡◌};
ghost use Rattle.banks.specs.declared.either.Either.TheVariants.{First, Second};

use edge_sets::Roles;
use edges::{Change, Edge};
use links::Link;
use refusals::{LinkFault, StoreFault};
use stores::{Reader, Store};

/// A link or a store of one of two makes, chosen when it is made. It means what the chosen one means, so
/// banks of one type can have vaults of several makes.
#[derive(Drop)]
pub enum Either<A, B> {
    First(A),
    Second(B),
}

impl<A: Link, B: Link> Link for Either<A, B> {
    ghost waiting = { elim [ First l ↦ A.waiting l | Second l ↦ B.waiting l ] };

    ghost limit = { elim [ First l ↦ A.limit l | Second l ↦ B.limit l ] };

    ghost bounded = { elim [ First l ↦ A.bounded l | Second l ↦ B.bounded l ] };

    fn send(&mut self, message: Change) -> Result<(), LinkFault> {
        match self {
            Either::First(link) => link.send(message),
            Either::Second(link) => link.send(message),
        }
    }

    fn head(&self) -> Option<Change> {
        match self {
            Either::First(link) => link.head(),
            Either::Second(link) => link.head(),
        }
    }

    fn strike(&mut self) {
        match self {
            Either::First(link) => link.strike(),
            Either::Second(link) => link.strike(),
        }
    }

    fn count(&self) -> usize {
        match self {
            Either::First(link) => link.count(),
            Either::Second(link) => link.count(),
        }
    }

    fn limit(&self) -> usize {
        match self {
            Either::First(link) => link.limit(),
            Either::Second(link) => link.limit(),
        }
    }
}

impl<A: Reader, B: Reader> Reader for Either<A, B> {
    ghost edges = { elim [ First s ↦ A.edges s | Second s ↦ B.edges s ] };

    ghost table = { elim [ First s ↦ A.table s | Second s ↦ B.table s ] };

    fn holds(&self, edge: Edge) -> bool {
        match self {
            Either::First(store) => store.holds(edge),
            Either::Second(store) => store.holds(edge),
        }
    }

    fn count(&self) -> usize {
        match self {
            Either::First(store) => store.count(),
            Either::Second(store) => store.count(),
        }
    }

    fn row(&self, from: u16) -> Roles {
        match self {
            Either::First(store) => store.row(from),
            Either::Second(store) => store.row(from),
        }
    }
}

impl<A: Store, B: Store> Store for Either<A, B> {
    ghost limit = { elim [ First s ↦ A.Store.limit s | Second s ↦ B.Store.limit s ] };

    ghost bounded = { elim [ First s ↦ A.Store.bounded s | Second s ↦ B.Store.bounded s ] };

    fn put(&mut self, edge: Edge) -> Result<(), StoreFault> {
        match self {
            Either::First(store) => store.put(edge),
            Either::Second(store) => store.put(edge),
        }
    }

    fn drop(&mut self, edge: Edge) {
        match self {
            Either::First(store) => store.drop(edge),
            Either::Second(store) => store.drop(edge),
        }
    }

    fn limit(&self) -> usize {
        match self {
            Either::First(store) => store.limit(),
            Either::Second(store) => store.limit(),
        }
    }
}
