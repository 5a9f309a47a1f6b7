//! Sets of edges as ascending lists, with their laws: sets by cells, a set of roles in one word, the search by
//! halving and what it finds of a vertex's roles. Tests: `layer_tests::stores_tests`, `layer_tests::readers_tests`.
#![tactic(auto)]

pub mod ascending_edges;
pub mod cell;
mod front_row;
pub mod laws;
pub mod places;
pub mod roles;

pub use ascending_edges::AscendingEdges;
pub use roles::Roles;
