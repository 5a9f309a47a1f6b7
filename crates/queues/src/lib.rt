//! The makes of link: a queue in a ring of places, over memory that keeps records (`Ring`) or frames of three
//! bytes (`Packed`). Tests: `layer_tests::links_tests`.
#![tactic(auto)]

mod cycle;
mod frames;
pub mod makes;
pub mod memory;
pub mod queue;
pub mod slots;
pub mod strip;

pub use makes::{Packed, Ring};
pub use memory::{Memory, NewMemory};
pub use queue::Queue;
