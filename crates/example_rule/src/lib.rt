//! A rule of precedence of one's own, as docs/EXTENDING.md shows it. It has no tests: its laws and its answer are proved.
#![tactic(auto)]

pub mod rule;

pub use rule::Grants;
