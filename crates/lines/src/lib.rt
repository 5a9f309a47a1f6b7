//! Command lines and the lines of a script: the reader, the writer, and the laws of both. Tests:
//! `layer_tests::lines_tests`, `layer_tests::writer_tests`.
#![tactic(auto)]

mod cursor;
mod draft;
mod ends;
pub mod fault;
mod forms;
pub mod laws;
mod letters;
mod names;
mod nodes;
mod pen;
pub mod reader;
mod signs;
mod token;
pub mod writer;

pub use fault::{TextFault, WriteFault};
