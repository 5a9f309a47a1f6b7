//! One question about an image, answered as a session over it would, and the function that a host in C calls.
//! Tests: `host/build` and `peer/calls`.
#![tactic(auto)]

pub mod fault;
pub mod question;

pub use fault::AccessFault;
