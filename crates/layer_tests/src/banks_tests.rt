use edges::Change;
use links::NewLink;
use pairs::Pairs;
use queues::{Packed, Ring};
use refusals::{BankFault, LinkFault, StoreFault};
use rows::Rows;
use std::alloc::{AllocError, Global};
use std::test::Fail;
use stores::NewStore;
use test_support::claim::claim;
use test_support::sample_edges::pair;
use vaults::inspection::inspect;
use vaults::{Bank, Vault};

// A change at one vault leaves the other as it was, and each fault holds that of the layer below.
// The bank has link limits 2 and 3, store limits 1 and 2.
fn keeps_apart<B: Bank>(bank: &mut B) -> Result<(), Fail> {
    let edge = pair(64, 65);
    claim(
        bank.send(0, Change::Add(edge)) == Ok(()),
        "an addition is sent",
    )?;
    claim(
        bank.send(0, Change::Remove(edge)) == Ok(()),
        "a removal is sent",
    )?;
    claim(
        bank.send(0, Change::Add(edge)) == Err(BankFault::Link(LinkFault::Full)),
        "a full link refuses",
    )?;
    claim(
        bank.load(0).waiting == 2 && bank.load(1).waiting == 0,
        "the other link is empty",
    )?;
    claim(bank.put(1, edge) == Ok(()), "an edge is put")?;
    claim(
        bank.holds(1, edge) && !bank.holds(0, edge),
        "the other table is empty",
    )?;
    claim(bank.put(0, edge) == Ok(()), "it is put there too")?;
    claim(
        bank.put(0, pair(64, 66)) == Err(BankFault::Store(StoreFault::Full)),
        "a full table refuses",
    )?;
    Ok(())
}

// What is asked of a vault that is not there.
fn lacks_third<B: Bank>(bank: &mut B) -> Result<(), Fail> {
    let edge = pair(64, 65);
    claim(
        bank.drop(2, edge) == Err(BankFault::NoVault),
        "no edge is dropped there",
    )?;
    claim(
        bank.strike(18446744073709551615) == Err(BankFault::NoVault),
        "no message is struck there",
    )?;
    claim(bank.load(1).link_limit == 3, "the second link's limit")?;
    claim(
        bank.load(2).store_limit == 0,
        "a vault that is not there has none",
    )?;
    claim(bank.load(0).held == 1, "the first table holds one")?;
    Ok(())
}

#[test]
fn by_number(rt: HostRuntime) -> Result<(), Fail> {
    let alloc = rt.alloc();
    let first = Vault::<Ring, Pairs>::new(alloc, 2, 1)?;
    let second = Vault::<Packed, Rows>::new(alloc, 3, 2)?;
    let mut bank = (first, (second, ()));
    keeps_apart(&mut bank)?;
    lacks_third(&mut bank)?;
    Ok(())
}

fn is_fit<B: Bank>(bank: &B) -> bool {
    inspect(bank) == Ok(())
}

// Whether a bank of one vault is fit.
fn one_is_fit<L: NewLink + Drop, S: NewStore + Drop>(
    alloc: Global,
    link: usize,
    store: usize,
) -> Result<bool, AllocError> {
    let vault = Vault::<L, S>::new(alloc, link, store)?;
    Ok(is_fit(&(vault, ())))
}

// Whether a bank is still fit where its vault holds an edge.
fn one_used(alloc: Global) -> Result<bool, AllocError> {
    let mut bank = (Vault::<Ring, Pairs>::new(alloc, 2, 1)?, ());
    let _ = bank.put(0, pair(0, 64));
    Ok(is_fit(&bank))
}

#[test]
fn inspected(rt: HostRuntime) -> Result<(), Fail> {
    let alloc = rt.alloc();
    assert!(rt; !is_fit(&()));
    assert!(rt; one_is_fit::<Ring, Pairs>(alloc, 2, 1)?);
    assert!(rt; one_is_fit::<Packed, Rows>(alloc, 1024, 512)?);
    assert!(rt; !one_is_fit::<Ring, Pairs>(alloc, 1, 1)?);
    assert!(rt; !one_is_fit::<Packed, Rows>(alloc, 2, 513)?);
    assert!(rt; !one_used(alloc)?);
    Ok(())
}
