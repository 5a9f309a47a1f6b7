ghost use Rattle.std.specs.Prelude.{◌≡◌, true, MatchResult};
ghost use Rattle.edge_sets.specs.EdgeSets.{Found, Absent, ascends, all_edges};

use edge_sets::{AscendingEdges, Roles};
use edges::Edge;
use graph::Graph;

/// The graph of an ascending list of edges.
#[derive(Drop)]
pub struct EdgeList<'a> {
    pub(crate) edges: &'a [Edge],
    ghost sorted: { ascends edges.now ≡ true },
    ghost proper: { all_edges edges.now ≡ true },
}

impl EdgeList<'_> {
    fn list(&self) -> AscendingEdges<'_>
        ensures { result.edges.now ≡ self.now.edges.now }
    {
        AscendingEdges { edges: self.edges }
    }

    // Ok with the place of an edge, or Err with the place where it would go.
    pub(crate) fn seek(&self, edge: Edge) -> Result<usize, usize>
        ensures { MatchResult result (λ i. Found edge self.now.edges.now i) (λ i. Absent edge self.now.edges.now i) }
    {
        self.list().find(edge)
    }
}

impl Graph for EdgeList<'_> {
    ghost edges = { λ l. l.edges.now };

    ghost formed = { λ l. l.proper };

    fn holds(&self, edge: Edge) -> bool {
        self.seek(edge).is_ok()
    }

    fn row(&self, from: u16) -> Roles {
        self.list().row(from)
    }
}
