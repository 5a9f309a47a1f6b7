ghost use Rattle.std.specs.Prelude.{◌≡◌, [], IfOk};
ghost use Rattle.links.specs.Links.{link_limit};
ghost use Rattle.stores.specs.Stores.{store_limit};

use links::{Link, NewLink};
use std::alloc::{AllocError, Global};
use stores::{NewStore, Reader, Store};

/// A vault as the bank has it: the link that messages reach it by, and the store that is its table.
#[derive(Drop)]
pub struct Vault<L, S> {
    pub link: L,
    pub store: S,
}

impl<L: NewLink + Drop, S: NewStore> Vault<L, S> {
    /// An empty vault of any make, with the limits of its link and of its store.
    pub fn new(alloc: Global, link: usize, store: usize) -> Result<Vault<L, S>, AllocError>
        ensures waiting { IfOk result (λ v. L.Link.waiting v.link ≡ []) }
        ensures link { IfOk result (λ v. L.Link.limit v.link ≡ link_limit link) }
        ensures edges { IfOk result (λ v. S.Reader.edges v.store ≡ []) }
        ensures store { IfOk result (λ v. S.Store.limit v.store ≡ store_limit store) }
    {
        Ok(Vault {
            link: L::new(alloc, link)?,
            store: S::new(alloc, store)?,
        })
    }
}
