//! A store of rows of bits. Tests: `layer_tests::stores_tests`.
#![tactic(auto)]

pub mod rows;
mod words;

pub use rows::Rows;
