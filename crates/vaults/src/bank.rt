ghost use Rattle.std.specs.Prelude.{◌≡◌, ℕ, List, length, nat_lt};
ghost use Rattle.edge_sets.specs.EdgeSets.{has};
ghost use Rattle.links.specs.Links.{first};
ghost use Rattle.vaults.specs.Loads.{load_of};
ghost use Rattle.vaults.specs.Sites.{Site, site_at, alter, send_to, strike_at, put_into, drop_from, asked, link_says, store_says, accepted, AllTables, AllBounded};

use edges::{Change, Edge};
use refusals::BankFault;

/// How full a vault is: the messages that wait and the edges that are held, with their limits.
#[derive(Clone, Copy)]
pub struct Load {
    pub waiting: usize,
    pub link_limit: usize,
    pub held: usize,
    pub store_limit: usize,
}

/// A bank numbers its vaults from 0; each has a link and a store of any make. It means the list of
/// its sites. A change of a vault that is not there is refused with 9 and alters nothing; a question
/// about one is answered as for a vault with limits 0, which needs no Option.
pub trait Bank {
    ghost sites: { Self → List Site };

    fn has(&self, vault: usize) -> bool
        ensures { result ≡ nat_lt vault (length (sites self.now)) };

    fn send(&mut self, vault: usize, message: Change) -> Result<(), BankFault>
        ensures answer { result ≡ asked (link_says message) (sites self.old) vault }
        ensures sites { sites self.new ≡ alter vault (send_to message) (sites self.old) };

    fn head(&self, vault: usize) -> Option<Change>
        ensures { result ≡ first (site_at (sites self.now) vault).waiting };

    fn strike(&mut self, vault: usize) -> Result<(), BankFault>
        ensures answer { result ≡ asked accepted (sites self.old) vault }
        ensures sites { sites self.new ≡ alter vault strike_at (sites self.old) };

    fn put(&mut self, vault: usize, edge: Edge) -> Result<(), BankFault>
        ensures answer { result ≡ asked (store_says edge) (sites self.old) vault }
        ensures sites { sites self.new ≡ alter vault (put_into edge) (sites self.old) };

    fn drop(&mut self, vault: usize, edge: Edge) -> Result<(), BankFault>
        ensures answer { result ≡ asked accepted (sites self.old) vault }
        ensures sites { sites self.new ≡ alter vault (drop_from edge) (sites self.old) };

    fn holds(&self, vault: usize, edge: Edge) -> bool
        ensures { result ≡ has (site_at (sites self.now) vault).table edge };

    /// How much waits and is held at a vault, and how much may.
    fn load(&self, vault: usize) -> Load
        ensures { result ≡ load_of (site_at (sites self.now) vault) };

    ghost tables: { (b : Self) → AllTables (sites b) };

    ghost bounded: { (b : Self) → AllBounded (sites b) };
}
