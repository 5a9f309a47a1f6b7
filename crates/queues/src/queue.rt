ghost use Rattle.std.specs.Prelude.{◌≡◌, ◌<◌, true, [], ◌∷◌, ◌++◌, length};
ghost use Rattle.std.specs.List.{slice_get};
ghost use Rattle.edges.specs.Edges.{edge_of, vault_edge};
ghost use Rattle.links.specs.Links.{link_limit};
ghost use Rattle.queues.specs.Queues.{queue_waiting, queue_limit};
ghost use Rattle.queues.specs.Lengths.{waits_few};

use crate::cycle::Cycle;
use crate::memory::{Memory, NewMemory};
use edges::Change;
use links::link::admit;
use links::{Link, NewLink};
use refusals::LinkFault;
use std::alloc::{AllocError, Global};

/// A link that keeps its messages in a ring of places.
/// It is not the library's VecDeque, since one
/// memory keeps frames on a strip of its own, and one ring serves every memory.
#[derive(Drop)]
pub struct Queue<M> {
    pub(crate) memory: M,
    pub(crate) cycle: Cycle,
}

impl<M: Memory> Queue<M> {
    /// An empty link over a memory, for `limit` messages, 2 to 1024; with any other number its limit is 0.
    pub fn over(memory: M, limit: usize) -> Queue<M>
        ensures waiting { queue_waiting M.Memory.at result ≡ [] }
        ensures limit { queue_limit result ≡ link_limit limit }
    {
        Queue {
            memory,
            cycle: Cycle::new(limit),
        }
    }

    // Puts a message behind all that wait. That it is about a vault edge is known at the one call of
    // this; a type for such messages would carry it over one line.
    #[tactic(auto, using(crate::specs::Lengths::waits_length))]
    fn append(&mut self, message: Change)
        requires room { length (queue_waiting M.Memory.at self.old) < queue_limit self.old }
        requires vault { vault_edge (edge_of message) ≡ true }
        ensures list { queue_waiting M.Memory.at self.new
            ≡ queue_waiting M.Memory.at self.old ++ (message ∷ []) }
        ensures limit { queue_limit self.new ≡ queue_limit self.old }
    {
        let at = self.cycle.place(self.cycle.count);
        self.memory.write(at, message);
        self.cycle.grow();
    }

    // The message that has k others before it, or none.
    #[tactic(auto, using(crate::proofs::Cycles::waits_at, crate::proofs::Cycles::waits_past))]
    fn message(&self, k: usize) -> Option<Change>
        ensures { result ≡ slice_get (queue_waiting M.Memory.at self.now) k }
    {
        if k >= self.cycle.count {
            return None;
        }
        self.memory.read(self.cycle.place(k))
    }
}

impl<M: Memory> Link for Queue<M> {
    ghost waiting = { queue_waiting M.Memory.at };

    ghost limit = { queue_limit };

    ghost bounded = { λ l. waits_few (M.Memory.at l.memory) l.cycle };

    fn send(&mut self, message: Change) -> Result<(), LinkFault> {
        admit(self.limit(), self.count(), message)?;
        self.append(message);
        Ok(())
    }

    fn head(&self) -> Option<Change> {
        self.message(0)
    }

    fn strike(&mut self) {
        self.cycle.advance();
    }

    fn count(&self) -> usize {
        self.cycle.count()
    }

    fn limit(&self) -> usize {
        self.cycle.limit
    }
}

impl<M: NewMemory> NewLink for Queue<M> {
    fn new(alloc: Global, limit: usize) -> Result<Queue<M>, AllocError> {
        Ok(Queue::over(M::new(alloc)?, limit))
    }
}
