//! The words of the policy graph: vertices by kind, edges in their order, changes of an edge; which pairs are
//! edges and which of these a vault ever hears of. Tests: `layer_tests`.
#![tactic(auto)]

pub mod edges;
pub mod kinds;
pub mod limit_range;

pub use edges::{Change, Edge};
pub use kinds::Kind;
pub use limit_range::LimitRange;
