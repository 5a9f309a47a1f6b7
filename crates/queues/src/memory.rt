ghost use Rattle.std.specs.Prelude.{◌≡◌, ℕ, ◌<◌, IfOk};
ghost use Rattle.edges.specs.declared.edges.Change.{Change};
ghost use Rattle.queues.specs.Memories.{lying, Stored};

use edges::Change;
use std::alloc::{AllocError, Global};

/// Memory for the messages of a link: 1024 places, numbered from 0. It means which message lies in
/// each place.
pub trait Memory {
    ghost at: { Self → ℕ → Change };

    /// The message in a place; none past the last place.
    fn read(&self, place: usize) -> Option<Change>
        ensures { result ≡ lying (at self.now) place };

    /// Puts a message about a vault edge into a place, and leaves all other places as they were. Nothing
    /// is altered by any other message, or past the last place.
    fn write(&mut self, place: usize, message: Change)
        ensures stored { Stored (at self.old) (at self.new) place message };
}

/// Memory that can be made: one and the same message lies in each of its places then.
pub trait NewMemory: Memory {
    ghost unwritten: { Change };

    fn new(alloc: Global) -> Result<Self, AllocError>
        ensures { IfOk result (λ m. (i : ℕ) → i < 1024 → Self.Memory.at m i ≡ unwritten) };
}
