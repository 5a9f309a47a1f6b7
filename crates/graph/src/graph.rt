ghost use Rattle.std.specs.Prelude.{◌≡◌, true};
ghost use Rattle.edge_sets.specs.EdgeSets.{Edges, all_edges, has};
ghost use Rattle.edge_sets.specs.BitRows.{Row};
ghost use Rattle.edge_sets.proofs.Members.{vault_edges};
ghost use Rattle.graph.specs.Searches.{ReachesRoles};

use crate::search::reached;
use edge_sets::Roles;
use edges::Edge;
use stores::Reader;

/// Anything that answers whether there is an edge. It means a set of edges.
pub trait Graph {
    ghost edges: { Self → Edges };

    fn holds(&self, edge: Edge) -> bool
        ensures { result ≡ has (edges self.now) edge };

    /// The roles that a vertex has an edge to.
    fn row(&self, from: u16) -> Roles
        ensures { Row (edges self.now) from result.word };

    // All of them are edges: so only roles have edges both in and out.
    ghost formed: { (g : Self) → all_edges (edges g) ≡ true };
}

// A reader is the graph of the edges that it holds.
impl<R: Reader> Graph for R {
    ghost edges = { λ r. R.Reader.edges r };

    ghost formed = { λ r. vault_edges (R.Reader.edges r) (R.Reader.table r).vault };

    fn holds(&self, edge: Edge) -> bool {
        Reader::holds(self, edge)
    }

    fn row(&self, from: u16) -> Roles {
        Reader::row(self, from)
    }
}

/// A graph that tells at once all roles that a vertex reaches.
pub trait Paths: Graph {
    /// The roles that a vertex reaches, itself among them if it is a role.
    fn reached(&self, from: u16) -> Roles
        ensures { ReachesRoles (Self.Graph.edges self.now) from result.word };
}

// A reader searches for them.
impl<R: Reader> Paths for R {
    fn reached(&self, from: u16) -> Roles {
        reached(self, from)
    }
}
