ghost use Rattle.std.specs.Prelude.{◌≡◌, ◌^◌, ◌<◌};
ghost use Rattle.edges.specs.Edges.{vault_edge};
ghost use Rattle.edge_sets.specs.Cells as cells;

use edges::Edge;

// The edge of a cell. A function and no From, as a bare number does not say that it is a cell.
pub(crate) fn edge_at(cell: u32) -> Edge
    requires { cell < 2 ^ 24 }
    ensures { result ≡ cells.edge_at cell }
{
    let [_, high, low, to] = cell.to_be_bytes();
    Edge {
        from: u16::from_be_bytes([high, low]),
        to: u16::from(to),
    }
}

// Whether a cell is that of a vault edge.
pub(crate) fn is_vault_cell(cell: u32) -> bool
    requires { cell < 2 ^ 24 }
    ensures { result ≡ vault_edge (cells.edge_at cell) }
{
    edge_at(cell).is_vault_edge()
}
