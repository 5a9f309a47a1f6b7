//! What the centre can be asked to do. The reader of lines and the rules both stand on it. Tests:
//! `layer_tests::lines_tests`, `centre_tests`.
#![tactic(auto)]

pub mod call;

pub use call::Call;
