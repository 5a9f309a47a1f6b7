ghost use Rattle.std.specs.Prelude.{IfOk, IfErr};
ghost use Rattle.edge_sets.specs.EdgeSets.{Lower, Stands, Between};

use edges::Edge;

// The first place from which on no edge comes before `edge`, by halving. The slice's own searches
// promise less of the neighbours of the place that they end at.
pub(crate) fn lower_bound(edges: &[Edge], edge: Edge) -> usize
    ensures { Lower edge edges.now result }
{
    let mut low = 0;
    let mut high = edges.len();
    while low < high {
        let middle = low + (high - low) / 2;
        if edges[middle] < edge {
            low = middle + 1;
        } else {
            high = middle;
        }
    }
    low
}

/// Looks for an edge in a list of edges, whatever their order: Ok with a place where it stands, or Err with
/// one that has its neighbours on either side of it. In a list that does not ascend there may be others.
pub fn find(edges: &[Edge], edge: Edge) -> Result<usize, usize>
    ensures stands { IfOk result (Stands edge edges.now) }
    ensures between { IfErr result (Between edge edges.now) }
{
    let at = lower_bound(edges, edge);
    if edges.get(at) == Some(&edge) {
        Ok(at)
    } else {
        Err(at)
    }
}
