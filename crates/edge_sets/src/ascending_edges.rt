ghost use Rattle.std.specs.Prelude.{◌≡◌, true};
ghost use Rattle.edge_sets.specs.EdgeSets.{ascends};

use crate::front_row::row_in_front;
use crate::places::{find, lower_bound};
use crate::roles::Roles;
use edges::Edge;

/// A list of edges that ascends, lent by whoever keeps it: a set of edges.
#[derive(Clone, Copy)]
pub struct AscendingEdges<'a> {
    pub edges: &'a [Edge],
    ghost ascending: { ascends edges.now ≡ true },
}

impl AscendingEdges<'_> {
    ghost use Rattle.std.specs.Prelude.{IfOk, IfErr};
    ghost use Rattle.edge_sets.specs.EdgeSets.{Found, Absent};
    ghost use Rattle.edge_sets.specs.BitRows.{Row};

    /// Ok with the place of an edge, or Err with the place where it would go.
    #[tactic(auto, using(crate::proofs::Ranks::found, crate::proofs::Ranks::absent))]
    pub fn find(&self, edge: Edge) -> Result<usize, usize>
        ensures found { IfOk result (Found edge self.now.edges.now) }
        ensures absent { IfErr result (Absent edge self.now.edges.now) }
    {
        find(self.edges, edge)
    }

    /// The roles that a vertex has an edge to: the place of the first is found by halving, and the others
    /// stand behind it.
    #[tactic(auto, using(crate::proofs::Rows::row_behind))]
    pub fn row(&self, from: u16) -> Roles
        ensures { Row self.now.edges.now from result.word }
    {
        let at = lower_bound(self.edges, Edge { from, to: 64 });
        row_in_front(&self.edges[at..], from)
    }
}
