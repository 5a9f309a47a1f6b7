//! The rules of the centre: an installation with its calls, the questions put to each, its outcomes, runs of
//! calls with their answers, and what holds of every run. docs/RULES.md is its text. The centre, above it, does
//! what it says. Tests: the worked examples are theorems here, and run in `centre_tests::examples_tests`.
#![tactic(auto)]

pub mod fault;
pub mod laws;
pub mod record;

pub use fault::{CentreFault, WorkFault};
pub use record::{CallRecord, CommandRecord};
