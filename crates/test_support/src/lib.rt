//! What the programs and tests share: three edges, the delivery of a message, a fact that is claimed.
#![tactic(auto)]

pub mod claim;
pub mod delivery;
pub mod sample_edges;
