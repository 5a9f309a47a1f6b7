//! What the bytes of an image mean, and that writing and reading them are inverse; a run, to and from its four
//! bytes. Tests: `layer_tests::images_tests`.
#![tactic(auto)]

pub mod runs;

pub use runs::Run;
