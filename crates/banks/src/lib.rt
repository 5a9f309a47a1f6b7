//! Banks that are made whole from two limits, by their type or as a list as long as wanted; and a link or store
//! of one of two makes, chosen when it is made. Tests: `centre_tests::banks_tests`.
#![tactic(auto)]

pub mod either;
pub mod growing;
pub mod list;
pub mod made;
pub mod mixed;

pub use either::Either;
pub use growing::GrowingBank;
pub use list::VaultList;
pub use made::NewBank;
pub use mixed::{MixedList, MixedVault};
