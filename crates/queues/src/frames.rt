ghost use Rattle.std.specs.Prelude.{◌≡◌, ◌<◌, ◌≤◌, true, ◌++◌, length, drop};
ghost use Rattle.edges.specs.Edges.{edge_of, vault_edge};
ghost use Rattle.queues.specs.Frames.{frame, framed};

use edges::{Change, Edge};

// Writes the frame of a message at the front of `out`. No From makes a frame of a message: both types
// are another crate's, and only a message about a vault edge has a frame.
pub(crate) fn write_frame(out: &mut [u8], message: Change)
    requires room { 3 ≤ length out.old }
    requires vault { vault_edge (edge_of message) ≡ true }
    ensures { out.new ≡ frame message ++ drop 3 out.old }
{
    let edge = message.edge();
    let [_, from] = edge.from.to_be_bytes();
    let [_, to] = edge.to.to_be_bytes();
    out[0] = match message {
        Change::Add(_) => b'+',
        Change::Remove(_) => b'-',
    };
    out[1] = from;
    out[2] = to;
}

// Reads the message whose frame is at the front of `bytes`.
pub(crate) fn read_frame(bytes: &[u8]) -> Change
    requires { 3 ≤ length bytes.now }
    ensures { result ≡ framed bytes.now 0 }
{
    let edge = Edge {
        from: u16::from(bytes[1]),
        to: u16::from(bytes[2]),
    };
    if bytes[0] == b'+' {
        Change::Add(edge)
    } else {
        Change::Remove(edge)
    }
}
