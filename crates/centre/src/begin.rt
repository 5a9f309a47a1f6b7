ghost use Rattle.std.specs.Prelude.{◌≡◌, [], IfOk, IfErr};
ghost use Rattle.rules.specs.Installation.{naming};
ghost use Rattle.centre.specs.Holding.{installation};
ghost use Rattle.policy.specs.Books.{ledger};
ghost use Rattle.centre.specs.Promises.{RunFrom};

use crate::naming::Naming;
use crate::office::Office;
use crate::vault_row::VaultRow;
use policy::{Keeping, Policy};
use precedence::Precedence;
use privileges::Privileges;
use std::alloc::{AllocError, Global};
use vaults::Bank;

/// What begin was given, handed back where there is no memory.
#[derive(Drop)]
pub struct NotBegun<B: Bank, R: Precedence> {
    pub bank: B,
    pub rule: R,
}

// Empty books. No call allocates after this.
fn books(alloc: Global) -> Result<(Privileges, Policy), AllocError>
    ensures { IfOk result (λ b. (b.0 ≡ []) × ((ledger b.1).edges ≡ [])) }
{
    Ok((Privileges::new(alloc)?, Policy::new(alloc)?))
}

/// Begins with a bank and a rule: an empty policy, nothing declared and nothing kept. A bank that does
/// not pass inspection is worked as one without vaults.
pub fn begin<B: Bank, R: Precedence>(
    alloc: Global,
    bank: B,
    rule: R,
) -> Result<Naming<B, R>, NotBegun<B, R>>
    ensures begun { IfOk result (λ n. RunFrom (R.over rule) (B.sites bank) [] (installation naming n)) }
    ensures rule { IfOk result (λ n. n.rule ≡ rule) }
    ensures back { IfErr result (λ b. (b.bank ≡ bank) × (b.rule ≡ rule)) }
{
    match books(alloc) {
        Err(AllocError) => Err(NotBegun { bank, rule }),
        Ok((names, policy)) => Ok(Naming {
            office: Office {
                vaults: VaultRow::new(bank),
                rule,
                names,
                policy,
                keeping: Keeping::new(),
            },
        }),
    }
}
