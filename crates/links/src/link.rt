ghost use Rattle.std.specs.Prelude.{◌≡◌, ℕ, ◌<◌, ◌≤◌, true, List, [], length, IfOk, OnOk};
ghost use Rattle.edges.specs.declared.edges.Change.{Change};
ghost use Rattle.links.specs.Links.{sent, send_answer, first, rest, link_limit};
ghost use Rattle.edges.specs.Edges.{edge_of, vault_edge};
ghost use Rattle.links.specs.Links.{admits};

use edges::{Change, LimitRange};
use refusals::LinkFault;
use std::alloc::{AllocError, Global};

/// The limits that a link may be made with.
pub const LIMITS: LimitRange = LimitRange {
    least: 2,
    most: 1024,
};

/// A link carries messages from the centre to one vault. It means the list of the messages that wait,
/// the oldest first, and a limit on how many may. A make of link says by these two ghost members what
/// its memory means. That the limit never moves is said by each call that alters, as an invariant
/// knows of one state alone.
pub trait Link {
    ghost waiting: { Self → List Change };

    ghost limit: { Self → ℕ };

    /// Sends a message: it waits behind all others. Refused with 2 unless it is about a vault edge,
    /// then with 13 just when the list is at its limit.
    fn send(&mut self, message: Change) -> Result<(), LinkFault>
        ensures answer { result ≡ send_answer (limit self.old) (waiting self.old) message }
        ensures list { waiting self.new ≡ sent (limit self.old) (waiting self.old) message }
        ensures fixed { limit self.new ≡ limit self.old };

    /// The first message that waits, or none.
    fn head(&self) -> Option<Change>
        ensures { result ≡ first (waiting self.now) };

    /// Removes the first message; where none waits, nothing is altered.
    fn strike(&mut self)
        ensures list { waiting self.new ≡ rest (waiting self.old) }
        ensures fixed { limit self.new ≡ limit self.old };

    fn count(&self) -> usize
        ensures { result ≡ length (waiting self.now) };

    fn limit(&self) -> usize
        ensures { result ≡ limit self.now };

    ghost bounded: { (l : Self) → length (waiting l) ≤ limit l };
}

/// A link that can be made: empty, for `limit` messages, 2 to 1024; with any other number its limit is 0.
pub trait NewLink: Link {
    fn new(alloc: Global, limit: usize) -> Result<Self, AllocError>
        ensures waiting { IfOk result (λ l. Self.Link.waiting l ≡ []) }
        ensures limit { IfOk result (λ l. Self.Link.limit l ≡ link_limit limit) };
}

/// Whether a link of this limit takes a message where `waiting` messages wait.
pub fn admit(limit: usize, waiting: usize, message: Change) -> Result<(), LinkFault>
    ensures answer { result ≡ admits limit waiting message }
    ensures taken { OnOk result ((vault_edge (edge_of message) ≡ true) × (waiting < limit)) }
{
    if !message.edge().is_vault_edge() {
        return Err(LinkFault::NoVaultEdge);
    }
    if waiting >= limit {
        return Err(LinkFault::Full);
    }
    Ok(())
}
