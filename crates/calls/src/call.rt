use edges::{Change, Edge};

/// What the centre can be asked to do, in three stages: naming (declare, keep, the end of naming),
/// seating (seat, open) and service (command). Applying and delivering belong to seating and service.
#[derive(Clone, Copy, PartialEq, Eq, Debug)]
pub enum Call {
    /// Names the administrative privilege that allows a change.
    Declare(Change),
    /// Has a vault keep a user privilege.
    Keep { vault: usize, privilege: u16 },
    EndNaming,
    /// Adds an edge without asking who wants it.
    Seat(Edge),
    Open,
    /// A user's wish to add or to remove an edge.
    Command { user: u16, change: Change },
    /// Performs the first message that waits at a vault on its table, and leaves it waiting.
    Apply { vault: usize },
    /// Performs the first message that waits at a vault on its table, and strikes it.
    Deliver { vault: usize },
}
