//! What the centre writes down: the policy with the vaults that are told of each edge, who keeps which privilege,
//! what is found out about an edge before it is added, and who is authorised. Tests: `centre_tests`.
#![tactic(auto)]

pub mod addition;
pub mod edge_list;
pub mod fault;
pub mod keeping;
pub mod policy;
pub mod rights;
pub mod role_paths;
pub mod vault_counts;
pub mod vault_set;

pub use addition::Addition;
pub use fault::PolicyFault;
pub use keeping::Keeping;
pub use policy::Policy;
pub use vault_set::VaultSet;
