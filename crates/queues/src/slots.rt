ghost use Rattle.std.specs.Prelude.{◌≡◌, vec_len};

use crate::memory::{Memory, NewMemory};
use edges::{Change, Edge};
use std::alloc::{AllocError, Global};

// What lies in a slot that was never written to.
const UNUSED: Change = Change::Add(Edge { from: 0, to: 0 });

/// Memory that keeps each message as a record.
#[derive(Drop)]
pub struct Slots {
    slots: Vec<Change>,
    ghost long: { vec_len slots ≡ 1024 },
}

impl Memory for Slots {
    ghost use Rattle.queues.specs.Lying.{slots_at};

    ghost at = { slots_at };

    fn read(&self, place: usize) -> Option<Change> {
        self.slots.get(place).copied()
    }

    fn write(&mut self, place: usize, message: Change) {
        if !message.edge().is_vault_edge() {
            return;
        }
        if let Some(slot) = self.slots.get_mut(place) {
            *slot = message;
        }
    }
}

impl NewMemory for Slots {
    ghost use Rattle.queues.specs.Lying.{no_message};

    ghost unwritten = { no_message };

    fn new(alloc: Global) -> Result<Slots, AllocError> {
        let slots = vec![in alloc; UNUSED; 1024]?;
        Ok(Slots { slots })
    }
}
