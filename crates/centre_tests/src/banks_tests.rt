use crate::company::OneVault;
use crate::steps::{ACCEPTED, accepted, answered, deliver, edge, keep, over, seat, stands_at};
use banks::growing::grown;
use banks::{GrowingBank, MixedList, NewBank};
use calls::Call;
use centre::begin::begin;
use pairs::Pairs;
use precedence_rules::Full;
use queues::{Packed, Ring};
use rows::Rows;
use rules::CentreFault;
use std::alloc::{AllocError, Global};
use std::test::Fail;
use test_support::claim::claim;
use vaults::Bank;

// Vaults of all four pairs of makes, in turn.
type AnyBank = MixedList<Ring, Packed, Rows, Pairs>;

// Each of so many vaults keeps a privilege of its own, and the role that has all of them has a user.
fn spread<B: GrowingBank + Drop>(alloc: Global, count: usize) -> Result<(), Fail> {
    let bank = grown::<B>(alloc, 0, count, 4, 2)?;
    let mut at = over(alloc, bank, Full)?;
    for vault in 0..count {
        at = accepted(at, &[keep(vault, own(vault))])?;
    }
    at = answered(
        at,
        &[
            (keep(count, 128), Err(CentreFault::NoVault { vault: count })),
            (keep(0, 127), Err(CentreFault::NoPrivilege)),
            (Call::EndNaming, ACCEPTED),
        ],
    )?;
    for vault in 0..count {
        at = accepted(at, &[seat(64, own(vault))])?;
    }
    at = accepted(at, &[seat(2, 64)])?;
    for vault in 0..count {
        claim(
            stands_at(&at, vault, 2, 0, 2),
            "each vault is sent two edges",
        )?;
        at = answered(
            at,
            &[
                (deliver(vault), ACCEPTED),
                (deliver(vault), ACCEPTED),
                (deliver(vault), Err(CentreFault::NothingWaiting { vault })),
            ],
        )?;
        claim(stands_at(&at, vault, 0, 2, 2), "it has both")?;
        claim(
            at.office().keeps(vault, own(vault)) == Ok(true),
            "it keeps its own",
        )?;
        claim(
            at.office().keeps(vault, 255) == Ok(false),
            "it keeps no other",
        )?;
    }
    Ok(())
}

// The privilege that a vault keeps.
fn own(vault: usize) -> u16 {
    [128, 129, 130, 131, 132, 133, 134, 135][vault % 8]
}

// Eight vaults, two of each pair of makes.
#[test]
fn every_make(rt: HostRuntime) -> Result<(), Fail> {
    spread::<AnyBank>(rt.alloc(), 8)
}

// How many vaults of a bank are worked.
fn worked<B: Bank + Drop>(alloc: Global, bank: B) -> Result<usize, AllocError> {
    let naming = begin(alloc, bank, Full).map_err(|_| AllocError)?;
    Ok(naming.office().vault_count())
}

fn worked_with<B: NewBank + Drop>(
    alloc: Global,
    link: usize,
    store: usize,
) -> Result<usize, AllocError> {
    worked(alloc, B::new(alloc, link, store)?)
}

fn used<B: NewBank + Drop>(alloc: Global) -> Result<usize, AllocError> {
    let mut bank = B::new(alloc, 2, 1)?;
    let _ = bank.put(0, edge(0, 64));
    worked(alloc, bank)
}

// A bank that does not pass inspection is worked as one without vaults.
#[test]
fn inspected(rt: HostRuntime) -> Result<(), Fail> {
    let alloc = rt.alloc();
    for (link, store, count) in [
        (2, 1, 1),
        (1024, 512, 1),
        (1, 1, 0),
        (1025, 1, 0),
        (2, 0, 0),
        (2, 513, 0),
    ] {
        claim(
            worked_with::<OneVault>(alloc, link, store)? == count,
            "it is as inspection says",
        )?;
    }
    claim(
        worked_with::<()>(alloc, 2, 1)? == 0,
        "a bank without vaults",
    )?;
    for (count, works) in [(0, 0), (1, 1), (8, 8), (9, 0)] {
        let bank = grown::<AnyBank>(alloc, 1, count, 2, 1)?;
        claim(worked(alloc, bank)? == works, "it has one to eight vaults")?;
    }
    claim(used::<OneVault>(alloc)? == 0, "a bank that was used")
}
