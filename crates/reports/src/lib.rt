//! An installation looked at from outside: its vaults, its policy as a picture, its whole state as lines. What
//! is printed is only tested: by `conformance` and examples/.
#![tactic(auto)]

pub mod picture;
pub mod spelling;
pub mod state;
pub mod tables;
pub mod vault_view;
