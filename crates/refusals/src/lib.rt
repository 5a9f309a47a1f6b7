//! Refusals: what every fault tells of itself, and the faults of a link, a store and a bank. Each layer above
//! owns its own faults. Tests: `layer_tests::banks_tests`.
#![tactic(auto)]

pub mod bank;
pub mod layer;
pub mod link;
pub mod place;
pub mod refusal;
pub mod store;

pub use bank::BankFault;
pub use layer::Layer;
pub use link::LinkFault;
pub use place::Place;
pub use refusal::Refusal;
pub use store::StoreFault;
