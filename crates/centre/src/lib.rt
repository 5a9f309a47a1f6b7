//! The centre, over any bank and any rule of precedence: its calls by stage, questions, work lists, and whole
//! lists of calls. Tests: `centre_tests`.
#![tactic(auto)]

pub mod begin;
mod changes;
pub mod installation;
pub mod laws;
pub mod naming;
pub mod office;
mod questions;
mod requests;
pub mod running;
pub mod seating;
pub mod service;
pub mod vault_row;

pub use begin::NotBegun;
pub use installation::Installation;
pub use naming::Naming;
pub use office::Office;
pub use seating::Seating;
pub use service::Service;
