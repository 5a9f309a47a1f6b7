ghost use Rattle.std.specs.Prelude.{◌≡◌};
ghost use Rattle.edge_sets.specs.Cells as cells;

use edges::Edge;

/// The cell of an edge. A function and no From: a bare number does not say that it is a cell.
pub fn cell_of(edge: Edge) -> u32
    ensures { result ≡ cells.cell edge }
{
    u32::from(edge.from) * 256 + u32::from(edge.to)
}
