//! A vault, which is a link and a store of any make; a bank of vaults, asked by number; and whether a bank is
//! fit. Tests: `layer_tests::banks_tests`.
#![tactic(auto)]

pub mod bank;
pub mod inspection;
pub mod nesting;
pub mod vault;
pub mod vault_table;

pub use bank::{Bank, Load};
pub use vault::Vault;
pub use vault_table::VaultTable;
