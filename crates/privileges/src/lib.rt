//! Administrative privileges: the right to one change of the policy, declared and numbered in order; which pairs
//! are edges by what is declared, and how deep privileges are nested. Tests: `layer_tests::privileges_tests`.
#![tactic(auto)]

pub mod fault;
pub mod privileges;

pub use fault::DeclareFault;
pub use privileges::Privileges;
