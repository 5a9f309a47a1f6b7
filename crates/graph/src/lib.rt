//! The role graph: who reaches what, and the search for it over anything that answers for edges, which every
//! reader does. Tests: `layer_tests::readers_tests`.
#![tactic(auto)]

pub mod graph;
pub mod laws;
pub mod search;

pub use graph::{Graph, Paths};
