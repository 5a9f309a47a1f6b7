//! What a link is: the messages that wait for a vault, with a limit. A link of any make is a `Link`, and a
//! `NewLink` where it can be made; the makes are in `queues`. Tests: `layer_tests::links_tests`.
#![tactic(auto)]

pub mod link;

pub use link::{Link, NewLink};
