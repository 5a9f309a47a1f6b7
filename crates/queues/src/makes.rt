use crate::queue::Queue;
use crate::slots::Slots;
use crate::strip::Strip;

/// A link over a ring of records.
pub type Ring = Queue<Slots>;

/// A link over a packed strip of three-byte frames.
pub type Packed = Queue<Strip>;
