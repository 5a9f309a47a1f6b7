//! One line of a script, to its answer and its text, given to an installation at any stage or lent one in
//! service; and a whole script, line by line. Tests: `conformance`.
#![tactic(auto)]

pub mod fault;
pub mod front;
pub mod line;
pub mod serving;
pub mod shown;

pub use fault::ScriptFault;
pub use shown::Shown;
