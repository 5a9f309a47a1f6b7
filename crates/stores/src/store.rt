ghost use Rattle.std.specs.Prelude.{◌≡◌, ℕ, ◌≤◌, [], length, IfOk};
ghost use Rattle.edge_sets.specs.EdgeSets.{Edges, Table, has, delete};
ghost use Rattle.edge_sets.specs.BitRows.{Row};
ghost use Rattle.stores.specs.Stores.{put_answer, put, store_limit};

use edge_sets::Roles;
use edges::{Edge, LimitRange};
use refusals::StoreFault;
use std::alloc::{AllocError, Global};

/// The limits that a store may be made with.
pub const LIMITS: LimitRange = LimitRange {
    least: 1,
    most: 512,
};

/// A reader means a set of at most 512 vault edges, and tells whether it holds one, and how many.
pub trait Reader {
    ghost edges: { Self → Edges };

    fn holds(&self, edge: Edge) -> bool
        ensures { result ≡ has (edges self.now) edge };

    fn count(&self) -> usize
        ensures { result ≡ length (edges self.now) };

    /// The roles that a vertex has an edge to. Each make of reader may answer in a faster way than
    /// this.
    fn row(&self, from: u16) -> Roles
        ensures { Row (edges self.now) from result.word }
    {
        let mut row = Roles::none();
        for role in 64..128u16 {
            if self.holds(Edge { from, to: role }) {
                row = row.with(role);
            }
        }
        row
    }

    // The set is such a set.
    ghost table: { (r : Self) → Table (edges r) };
}

/// A store is a vault's table: a reader that can also put and drop, with a limit that never moves;
/// each call that alters says so, as an invariant knows of one state alone.
pub trait Store: Reader {
    ghost limit: { Self → ℕ };

    /// Puts an edge into the set. Refused with 2 unless it is a vault edge, then with 12 just when it
    /// is absent and the set is at its limit.
    fn put(&mut self, edge: Edge) -> Result<(), StoreFault>
        ensures answer { result ≡ put_answer (limit self.old) (Self.Reader.edges self.old) edge }
        ensures set { Self.Reader.edges self.new ≡ put (limit self.old) (Self.Reader.edges self.old) edge }
        ensures fixed { limit self.new ≡ limit self.old };

    /// Takes an edge out of the set; an absent one alters nothing.
    fn drop(&mut self, edge: Edge)
        ensures set { Self.Reader.edges self.new ≡ delete edge (Self.Reader.edges self.old) }
        ensures fixed { limit self.new ≡ limit self.old };

    fn limit(&self) -> usize
        ensures { result ≡ limit self.now };

    ghost bounded: { (s : Self) → length (Self.Reader.edges s) ≤ limit s };
}

/// A store that can be made: empty, for `limit` edges, 1 to 512; with any other number its limit is 0.
pub trait NewStore: Store {
    fn new(alloc: Global, limit: usize) -> Result<Self, AllocError>
        ensures edges { IfOk result (λ s. Self.Reader.edges s ≡ []) }
        ensures limit { IfOk result (λ s. Self.Store.limit s ≡ store_limit limit) };
}
