ghost use Rattle.std.specs.Prelude.{◌≡◌, ◌+◌, ◌/◌, ◌%◌};
ghost use Rattle.edges.specs.Edges.{edge};

use edges::Edge;
use test_support::sample_edges::pair;

/// The i-th of 4096 edges between roles; numbers above go round.
pub fn nth_edge(i: u16) -> Edge
    ensures { result ≡ edge (64 + i / 64 % 64) (64 + i % 64) }
{
    pair(64 + i / 64 % 64, 64 + i % 64)
}

fn count_vault_edges(pairs: &[Edge]) -> usize {
    pairs.iter().filter(|edge| edge.is_vault_edge()).count()
}

// The corners of what a vault edge is, and what is just outside.
#[test]
fn corners(rt: HostRuntime) {
    let inside = [
        pair(63, 64),
        pair(0, 127),
        pair(64, 64),
        pair(127, 127),
        pair(64, 128),
        pair(127, 255),
    ];
    assert_eq!(rt; count_vault_edges(&inside), 6);
    let outside = [
        pair(64, 63),
        pair(0, 128),
        pair(0, 63),
        pair(128, 64),
        pair(64, 256),
        pair(256, 64),
        pair(0, 0),
        pair(65535, 65535),
    ];
    assert_eq!(rt; count_vault_edges(&outside), 0);
}

// An edge to an administrative privilege is an edge, and never a vault's.
#[test]
fn administrative(rt: HostRuntime) {
    assert!(rt; pair(64, 256).is_edge() && pair(127, 383).is_edge());
    assert!(rt; !pair(64, 384).is_edge() && !pair(0, 256).is_edge());
    assert!(rt; !pair(64, 383).is_vault_edge());
}
