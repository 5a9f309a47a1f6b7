//! Two rules of precedence: a privilege stands over itself alone (`Plain`), or over all that the privilege
//! ordering puts it over (`Full`). Tests: `centre_tests::rules_tests`.
#![tactic(auto)]

pub mod full;
pub mod plain;

pub use full::Full;
pub use plain::Plain;
