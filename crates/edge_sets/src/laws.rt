// Each function stands for the theorem in its contract.
ghost use Rattle.edge_sets.specs.SetLaws.{EdgeSetsHold};

/// What insertion and deletion do to a set of edges.
pub fn edge_sets_hold()
    ensures { EdgeSetsHold }
{}
