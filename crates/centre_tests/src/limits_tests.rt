use crate::company::OneVault;
use crate::steps::{
    ACCEPTED, accepted, add, answered, begun, deliver, keep, remove, seat, stands_at, wish,
};
use banks::NewBank;
use calls::Call;
use centre::running::give;
use edges::Change;
use precedence_rules::Full;
use rules::CentreFault;
use std::alloc::Global;
use std::test::Fail;
use test_support::claim::claim;

// Eight levels of nesting are declared and no ninth; a change with nine may be wished for.
fn nests<B: NewBank + Drop>(alloc: Global) -> Result<(), Fail> {
    let mut at = begun::<B, Full>(alloc, 2, 1, Full)?;
    let mut inner: u16 = 128;
    for number in 256..264u16 {
        at = answered(at, &[(Call::Declare(add(64, inner)), Ok(number))])?;
        inner = number;
    }
    answered(
        at,
        &[
            (Call::Declare(add(64, 263)), Err(CentreFault::TooDeep)),
            (Call::Declare(add(64, 262)), Ok(263)),
            (Call::Declare(add(64, 264)), Err(CentreFault::NoEdge)),
            (Call::EndNaming, ACCEPTED),
            (seat(0, 64), ACCEPTED),
            (seat(64, 263), ACCEPTED),
            (Call::Open, ACCEPTED),
            (wish(0, add(64, 262)), ACCEPTED),
            (wish(0, add(65, 263)), Err(CentreFault::Unauthorised)),
        ],
    )?;
    Ok(())
}

// 128 privileges are declared and no more; one of old is still told its number.
fn names<B: NewBank + Drop>(alloc: Global) -> Result<(), Fail> {
    let mut at = begun::<B, Full>(alloc, 2, 1, Full)?;
    for number in 0..128u16 {
        let change = add(number % 64, 64 + number / 64);
        at = answered(at, &[(Call::Declare(change), Ok(256 + number))])?;
    }
    answered(
        at,
        &[
            (Call::Declare(add(0, 66)), Err(CentreFault::NamesFull)),
            (Call::Declare(add(63, 65)), Ok(383)),
            (Call::Declare(add(0, 64)), Ok(256)),
            (Call::Declare(add(64, 0)), Err(CentreFault::NoEdge)),
        ],
    )?;
    Ok(())
}

// 512 edges and no more; a held one is accepted again, and a withdrawal makes room for another.
fn edges<B: NewBank + Drop>(alloc: Global) -> Result<(), Fail> {
    let mut at = answered(
        begun::<B, Full>(alloc, 2, 1, Full)?,
        &[
            (Call::Declare(add(0, 72)), Ok(256)),
            (Call::Declare(remove(1, 64)), Ok(257)),
            (Call::EndNaming, ACCEPTED),
            (seat(64, 256), ACCEPTED),
            (seat(64, 257), ACCEPTED),
        ],
    )?;
    for i in 0..510u16 {
        at = accepted(at, &[seat(i % 64, 64 + i / 64)])?;
    }
    claim(at.office().edges().len() == 512, "the policy is full")?;
    let at = answered(
        at,
        &[
            (seat(63, 71), Err(CentreFault::PolicyFull)),
            (seat(61, 71), ACCEPTED),
            (Call::Open, ACCEPTED),
            (wish(0, add(0, 72)), Err(CentreFault::PolicyFull)),
            (wish(0, remove(1, 64)), ACCEPTED),
            (wish(0, remove(1, 64)), ACCEPTED),
            (wish(0, add(0, 72)), ACCEPTED),
            (wish(0, add(0, 72)), ACCEPTED),
        ],
    )?;
    claim(at.office().edges().len() == 512, "it is full again")
}

#[test]
fn counts(rt: HostRuntime) -> Result<(), Fail> {
    nests::<OneVault>(rt.alloc())?;
    names::<OneVault>(rt.alloc())?;
    edges::<OneVault>(rt.alloc())
}

// A withdrawal goes out over a link that has no room for any addition.
fn leaver<B: NewBank + Drop>(alloc: Global) -> Result<(), Fail> {
    let full = Err(CentreFault::LinkRoom { vault: 0 });
    let at = answered(
        begun::<B, Full>(alloc, 2, 512, Full)?,
        &[
            (Call::Declare(remove(65, 128)), Ok(256)),
            (Call::Declare(add(65, 128)), Ok(257)),
            (keep(0, 128), ACCEPTED),
            (keep(0, 128), ACCEPTED),
            (Call::EndNaming, ACCEPTED),
            (seat(0, 64), ACCEPTED),
            (seat(64, 256), ACCEPTED),
            (seat(64, 257), ACCEPTED),
            (seat(65, 128), ACCEPTED),
            (seat(2, 65), full),
            (Call::Open, ACCEPTED),
            (wish(0, remove(65, 128)), ACCEPTED),
        ],
    )?;
    claim(stands_at(&at, 0, 2, 0, 0), "the link is full")?;
    let at = answered(
        at,
        &[
            (wish(0, add(65, 128)), full),
            (wish(0, remove(65, 128)), ACCEPTED),
            (deliver(0), ACCEPTED),
            (deliver(0), ACCEPTED),
            (wish(0, add(65, 128)), ACCEPTED),
        ],
    )?;
    claim(stands_at(&at, 0, 1, 0, 1), "it is sent again")
}

#[test]
fn withdrawals_pass(rt: HostRuntime) -> Result<(), Fail> {
    leaver::<OneVault>(rt.alloc())
}
