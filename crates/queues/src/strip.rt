ghost use Rattle.std.specs.Prelude.{◌≡◌, vec_len};

use crate::frames::{read_frame, write_frame};
use crate::memory::{Memory, NewMemory};
use edges::Change;
use std::alloc::{AllocError, Global};

/// Memory that keeps each message as a frame of three bytes, on one strip. It is bytes and no list of
/// frames: a packed link is one strip of bytes, and a frame is written into the middle of it.
#[derive(Drop)]
pub struct Strip {
    strip: Vec<u8>,
    ghost long: { vec_len strip ≡ 3072 },
}

impl Strip {
    ghost use Rattle.std.specs.Prelude.{◌≡◌, ◌<◌, true};
    ghost use Rattle.edges.specs.Edges.{edge_of, vault_edge};
    ghost use Rattle.queues.specs.Memories.{Stored};
    ghost use Rattle.queues.specs.Lying.{strip_at, strip_bytes};
    ghost use Rattle.queues.specs.Frames.{FrameAt};

    fn frame(&self, place: usize) -> Change
        requires { place < 1024 }
        ensures { result ≡ strip_at self.now place }
    {
        read_frame(&self.strip[3 * place..])
    }

    // The strip is lent to the frame writer from the frame's place on. That the message is about a vault
    // edge is known at the one call of this.
    fn set_frame(&mut self, place: usize, message: Change)
        requires within { place < 1024 }
        requires vault { vault_edge (edge_of message) ≡ true }
        ensures stored { Stored (strip_at self.old) (strip_at self.new) place message }
        ensures frame { FrameAt (strip_bytes self.new) place message }
    {
        write_frame(&mut self.strip[3 * place..], message);
    }
}

impl Memory for Strip {
    ghost use Rattle.std.specs.Prelude.{◌≡◌, ◌<◌, true};
    ghost use Rattle.edges.specs.Edges.{edge_of, vault_edge};
    ghost use Rattle.queues.specs.Memories.{Stored};
    ghost use Rattle.queues.specs.Lying.{strip_at, strip_bytes};
    ghost use Rattle.queues.specs.Frames.{FrameAt};

    ghost at = { strip_at };

    fn read(&self, place: usize) -> Option<Change> {
        if place >= 1024 {
            return None;
        }
        Some(self.frame(place))
    }

    /// The three bytes of the place are the frame of the message then.
    fn write(&mut self, place: usize, message: Change)
        ensures stored { Stored (strip_at self.old) (strip_at self.new) place message }
        ensures frame { place < 1024 → vault_edge (edge_of message) ≡ true
            → FrameAt (strip_bytes self.new) place message }
    {
        if place < 1024 && message.edge().is_vault_edge() {
            self.set_frame(place, message);
        }
    }
}

impl NewMemory for Strip {
    ghost use Rattle.queues.specs.Lying.{no_frame};

    ghost unwritten = { no_frame };

    fn new(alloc: Global) -> Result<Strip, AllocError> {
        let strip = vec![in alloc; 0; 3072]?;
        Ok(Strip { strip })
    }
}
