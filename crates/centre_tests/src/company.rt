use crate::steps::{ACCEPTED, accepted, add, answered, begun, keep, remove, seat};
use banks::NewBank;
use calls::Call;
use centre::Installation;
use precedence::Precedence;
use queues::Ring;
use rows::Rows;
use std::alloc::Global;
use std::test::Fail;
use vaults::Vault;

/// The bank of the tests that are not about banks.
pub type OneVault = (Vault<Ring, Rows>, ());

/// A company, open, over a bank with these limits. The user 1 may put u2 into r0; the user 0 may give r2 the
/// privilege to do so, and may take p0 from r1. Vault 0 keeps p0. So 256 is +(u2,r0), 257 +(r2,256), 258
/// +(u2,r1) and 259 -(r1,p0). Where it is chained, r0 leads to r1.
pub fn company<B: NewBank + Drop, R: Precedence + Drop>(
    alloc: Global,
    link: usize,
    store: usize,
    rule: R,
    chained: bool,
) -> Result<Installation<B, R>, Fail> {
    let mut at = answered(
        begun::<B, R>(alloc, link, store, rule)?,
        &[
            (Call::Declare(add(2, 64)), Ok(256)),
            (Call::Declare(add(66, 256)), Ok(257)),
            (Call::Declare(add(2, 65)), Ok(258)),
            (Call::Declare(remove(65, 128)), Ok(259)),
            (keep(0, 128), ACCEPTED),
            (Call::EndNaming, ACCEPTED),
        ],
    )?;
    if chained {
        at = accepted(at, &[seat(64, 65)])?;
    }
    accepted(
        at,
        &[
            seat(65, 128),
            seat(1, 66),
            seat(66, 256),
            seat(0, 67),
            seat(67, 257),
            seat(67, 259),
            Call::Open,
        ],
    )
}
