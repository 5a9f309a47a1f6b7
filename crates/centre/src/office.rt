ghost use Rattle.std.specs.Prelude.{◌≡◌};

use crate::vault_row::VaultRow;
use policy::{Keeping, Policy};
use precedence::Precedence;
use privileges::Privileges;
use vaults::Bank;

/// The centre at any stage: the vaults that it works, its rule and its books. Which calls there are is
/// said by the types of the stages.
#[derive(Drop)]
pub struct Office<B: Bank, R: Precedence> {
    pub(crate) vaults: VaultRow<B>,
    pub(crate) rule: R,
    pub(crate) names: Privileges,
    pub(crate) policy: Policy,
    pub(crate) keeping: Keeping,
}

impl<B: Bank, R: Precedence> Office<B, R> {
    /// The administrative privileges that are declared.
    pub fn declared(&self) -> &Privileges
        ensures { result.now ≡ self.now.names }
    {
        &self.names
    }
}
