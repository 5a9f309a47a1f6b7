// The function stands for the theorem in its contract.
ghost use Rattle.graph.specs.Paths.{PathsDecided};

/// The computed reach decides the path relation.
pub fn paths_decided()
    ensures { PathsDecided }
{}
