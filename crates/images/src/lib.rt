//! Images: a reader over bytes, its runs one by one, and the writer. Tests: `layer_tests::images_tests`.
#![tactic(auto)]

mod cells;
pub mod fault;
pub mod image;
pub mod laws;
mod runs;
pub mod writer;

pub use fault::{ImageFault, WriteFault};
pub use image::Image;
