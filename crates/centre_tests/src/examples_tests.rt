use crate::company::{OneVault, company};
use crate::steps::{ACCEPTED, accepted, add, answered, deliver, remove, stands_at, wish};
use crate::users_first::UsersFirst;
use banks::NewBank;
use calls::Call;
use centre::Installation;
use images::writer::write;
use precedence::Precedence;
use precedence_rules::{Full, Plain};
use rules::CentreFault;
use std::alloc::Global;
use std::test::Fail;
use test_support::claim::claim;
use vaults::Bank;

// What a call is answered where the rule says so.
fn if_allowed(allowed: bool) -> Result<u16, CentreFault> {
    if allowed {
        ACCEPTED
    } else {
        Err(CentreFault::Unauthorised)
    }
}

// The commands of the worked examples by a rule. `wider` says whether that rule lets the privilege for r0
// stand for r1, and `inside` whether it does so in a privilege about a privilege.
fn by_rule<B: NewBank + Drop, R: Precedence + Drop>(
    alloc: Global,
    rule: R,
    wider: bool,
    inside: bool,
) -> Result<(), Fail> {
    let at = company::<B, R>(alloc, 1024, 512, rule, true)?;
    claim(stands_at(&at, 0, 2, 0, 2), "the seats are sent")?;
    let at = answered(
        at,
        &[
            (wish(1, remove(2, 64)), Err(CentreFault::Unauthorised)),
            (wish(1, add(2, 128)), Err(CentreFault::NoEdge)),
            (wish(64, add(2, 64)), Err(CentreFault::NoUser)),
            (wish(1, add(2, 64)), ACCEPTED),
            (wish(0, add(66, 258)), if_allowed(inside)),
        ],
    )?;
    claim(stands_at(&at, 0, 3, 0, 3), "one message was sent")?;
    answered(at, &[(wish(1, add(2, 65)), if_allowed(wider))])?;
    Ok(())
}

#[test]
fn by_the_full_rule(rt: HostRuntime) -> Result<(), Fail> {
    by_rule::<OneVault, Full>(rt.alloc(), Full, true, true)
}

#[test]
fn by_the_plain_rule(rt: HostRuntime) -> Result<(), Fail> {
    by_rule::<OneVault, Plain>(rt.alloc(), Plain, false, false)
}

#[test]
fn by_a_rule_of_ones_own(rt: HostRuntime) -> Result<(), Fail> {
    by_rule::<OneVault, UsersFirst>(rt.alloc(), UsersFirst, true, false)
}

// Without the edge from r0 to r1 no privilege stands for another.
fn unchained<B: NewBank + Drop>(alloc: Global) -> Result<(), Fail> {
    let at = company::<B, Full>(alloc, 1024, 512, Full, false)?;
    let refused = Err(CentreFault::Unauthorised);
    answered(
        at,
        &[
            (wish(0, add(66, 258)), refused),
            (wish(1, add(2, 65)), refused),
        ],
    )?;
    Ok(())
}

// What a link and a store are short of, to the edge.
fn rooms<B: NewBank + Drop>(alloc: Global) -> Result<(), Fail> {
    let short = company::<B, Full>(alloc, 5, 512, Full, true)?;
    answered(
        short,
        &[(wish(1, add(2, 64)), Err(CentreFault::LinkRoom { vault: 0 }))],
    )?;
    let enough = company::<B, Full>(alloc, 6, 512, Full, true)?;
    let enough = accepted(enough, &[wish(1, add(2, 64)), wish(0, remove(65, 128))])?;
    claim(stands_at(&enough, 0, 4, 0, 2), "the withdrawal went out")?;
    let small = company::<B, Full>(alloc, 1024, 2, Full, true)?;
    answered(
        small,
        &[(
            wish(1, add(2, 64)),
            Err(CentreFault::StoreRoom { vault: 0 }),
        )],
    )?;
    let fitting = company::<B, Full>(alloc, 1024, 3, Full, true)?;
    accepted(fitting, &[wish(1, add(2, 64))])?;
    Ok(())
}

// What a table's image is, and what a session over the table is told.
fn reads<B: Bank + Drop>(at: &Installation<B, Full>) -> Result<(), Fail> {
    let table = at
        .office()
        .table(0)
        .map_err(|_| Fail::new("there is a vault"))?;
    let mut bytes = [0u8; 2050];
    let image = [0, 3, 2, 64, 0, 1, 64, 65, 0, 1, 65, 128, 0, 1];
    claim(
        write(&table, &mut bytes) == Ok(14),
        "its image has 14 bytes",
    )?;
    claim(bytes.starts_with(&image), "it is that image")
}

// What is sent is delivered, one message after another; applying leaves it waiting.
fn delivered<B: NewBank + Drop>(alloc: Global) -> Result<(), Fail> {
    let at = company::<B, Full>(alloc, 1024, 512, Full, true)?;
    let at = accepted(
        at,
        &[wish(1, add(2, 64)), deliver(0), Call::Apply { vault: 0 }],
    )?;
    claim(
        stands_at(&at, 0, 2, 2, 3),
        "the second is applied and waits",
    )?;
    let at = accepted(at, &[Call::Apply { vault: 0 }, deliver(0)])?;
    claim(
        stands_at(&at, 0, 1, 2, 3),
        "to apply it again alters nothing",
    )?;
    let at = answered(
        at,
        &[
            (deliver(0), ACCEPTED),
            (deliver(0), Err(CentreFault::NothingWaiting { vault: 0 })),
            (
                Call::Apply { vault: 0 },
                Err(CentreFault::NothingWaiting { vault: 0 }),
            ),
            (deliver(1), Err(CentreFault::NoVault { vault: 1 })),
        ],
    )?;
    claim(stands_at(&at, 0, 0, 3, 3), "the table has all three")?;
    reads(&at)
}

#[test]
fn worked_examples(rt: HostRuntime) -> Result<(), Fail> {
    unchained::<OneVault>(rt.alloc())?;
    rooms::<OneVault>(rt.alloc())?;
    delivered::<OneVault>(rt.alloc())
}
