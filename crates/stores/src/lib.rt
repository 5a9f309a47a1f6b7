//! What a store is: a set of vault edges with a limit. Whatever can be asked for its edges is a `Reader`, one
//! that can be altered a `Store`, and one that can be made a `NewStore`. Tests: `layer_tests::stores_tests`,
//! `layer_tests::readers_tests`.
#![tactic(auto)]

pub mod store;

pub use store::{NewStore, Reader, Store};
