ghost use Rattle.std.specs.Prelude.{◌≡◌};
ghost use Rattle.edge_sets.specs.BitRows.{RowInFront, goes_to_role};

use crate::roles::Roles;
use edges::{Edge, Kind};

// Whether an edge goes from a vertex to a role.
fn is_role_of(edge: Edge, from: u16) -> bool
    ensures { result ≡ goes_to_role from edge }
{
    edge.from == from && Kind::Role.has(edge.to)
}

// The roles that a vertex has an edge to, in a list of edges that has no edge before those.
#[tactic(auto, using(crate::proofs::Rows::row_more, crate::proofs::Rows::row_ends, crate::proofs::Rows::row_stops))]
pub(crate) fn row_in_front(edges: &[Edge], from: u16) -> Roles
    ensures { RowInFront edges.now from result.word }
{
    let mut row = Roles::none();
    for edge in edges {
        if !is_role_of(*edge, from) {
            return row;
        }
        row = row.with(edge.to);
    }
    row
}
