ghost use Rattle.std.specs.Prelude.{◌≡◌, ◌<◌, ◌≤◌, true, vec_len, vec_capacity};
ghost use Rattle.std.proofs.Common.{sym};
ghost use Rattle.edges.specs.Edges.{vault_edge};
ghost use Rattle.edge_sets.specs.EdgeSets.{Found, Absent, all_vault, ascends, insert, delete};
ghost use Rattle.edge_sets.proofs.Tables.{table_of, few_of};

use edge_sets::{AscendingEdges, Roles};
use edges::Edge;
use refusals::StoreFault;
use std::alloc::{AllocError, Global};
use stores::store::LIMITS;
use stores::{NewStore, Reader, Store};

/// A store that keeps a list of edges, ascending by from, then by to. It is no tree or map, since
/// these ask for memory with each edge; its room is reserved when it is made.
#[derive(Drop)]
pub struct Pairs {
    pairs: Vec<Edge>,
    limit: usize,
    ghost sorted: { ascends pairs.items ≡ true },
    ghost vault: { all_vault pairs.items ≡ true },
    ghost few: { vec_len pairs ≤ limit },
    ghost small: { limit ≤ 512 },
    ghost reserved: { limit ≤ vec_capacity pairs },
}

impl Pairs {
    ghost use Rattle.pairs.specs.Held.{pairs_edges};

    // The edges, as an ascending list.
    fn list(&self) -> AscendingEdges<'_>
        ensures { result.edges.now ≡ pairs_edges self.now }
    {
        AscendingEdges { edges: &self.pairs }
    }

    // Puts an edge that is absent into its place. That it is a vault edge is known at the one call of
    // this; a type for such edges would carry it over one line.
    #[tactic(auto, using(edge_sets::proofs::Steps::entered, edge_sets::proofs::Steps::entered_ascends, edge_sets::proofs::Steps::entered_vault))]
    fn enter(&mut self, at: usize, edge: Edge)
        requires vault { vault_edge edge ≡ true }
        requires absent { Absent edge (pairs_edges self.old) at }
        requires room { vec_len self.old.pairs < self.old.limit }
        ensures edges { pairs_edges self.new ≡ insert edge (pairs_edges self.old) }
        ensures limit { self.new.limit ≡ self.old.limit }
    {
        let _ = self.pairs.insert(at, edge);
    }

    // Takes the edge out that stands at a place.
    #[tactic(auto, using(edge_sets::proofs::Steps::struck, edge_sets::proofs::Steps::struck_ascends, edge_sets::proofs::Steps::struck_vault))]
    fn strike_out(&mut self, at: usize, edge: Edge)
        requires { Found edge (pairs_edges self.old) at }
        ensures edges { pairs_edges self.new ≡ delete edge (pairs_edges self.old) }
        ensures limit { self.new.limit ≡ self.old.limit }
    {
        let _ = self.pairs.remove(at);
    }
}

impl Reader for Pairs {
    ghost use Rattle.pairs.specs.Held.{pairs_edges};

    ghost edges = { pairs_edges };

    ghost table = { λ p. table_of (pairs_edges p) (vec_len p.pairs) p.limit p.sorted p.vault (sym p.pairs.ok.0) p.few p.small };

    fn holds(&self, edge: Edge) -> bool {
        self.list().find(edge).is_ok()
    }

    fn count(&self) -> usize {
        self.pairs.len()
    }

    fn row(&self, from: u16) -> Roles {
        self.list().row(from)
    }
}

impl Store for Pairs {
    ghost use Rattle.pairs.specs.Held.{pairs_edges};

    ghost limit = { λ p. p.limit };

    ghost bounded = { λ p. few_of (pairs_edges p) (vec_len p.pairs) p.limit (sym p.pairs.ok.0) p.few };

    fn put(&mut self, edge: Edge) -> Result<(), StoreFault> {
        if !edge.is_vault_edge() {
            return Err(StoreFault::NoVaultEdge);
        }
        match self.list().find(edge) {
            Ok(_) => Ok(()),
            Err(_) if self.pairs.len() == self.limit => Err(StoreFault::Full),
            Err(at) => {
                self.enter(at, edge);
                Ok(())
            }
        }
    }

    fn drop(&mut self, edge: Edge) {
        if let Ok(at) = self.list().find(edge) {
            self.strike_out(at, edge);
        }
    }

    fn limit(&self) -> usize {
        self.limit
    }
}

impl NewStore for Pairs {
    fn new(alloc: Global, limit: usize) -> Result<Pairs, AllocError> {
        let limit = LIMITS.allow(limit);
        let pairs = Vec::with_capacity(alloc, limit)?;
        Ok(Pairs { pairs, limit })
    }
}
