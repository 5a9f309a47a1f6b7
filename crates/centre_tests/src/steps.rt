use banks::NewBank;
use calls::Call;
use centre::Installation;
use centre::begin::begin;
use centre::running::give;
use edges::{Change, Edge};
use precedence::Precedence;
use rules::CentreFault;
use std::alloc::{AllocError, Global};
use std::test::Fail;
use test_support::claim::claim;
use vaults::Bank;

/// A call and the answer that it should have.
pub type Row = (Call, Result<u16, CentreFault>);

pub const ACCEPTED: Result<u16, CentreFault> = Ok(0);

pub fn edge(from: u16, to: u16) -> Edge {
    Edge { from, to }
}

pub fn add(from: u16, to: u16) -> Change {
    Change::Add(edge(from, to))
}

pub fn remove(from: u16, to: u16) -> Change {
    Change::Remove(edge(from, to))
}

pub fn seat(from: u16, to: u16) -> Call {
    Call::Seat(edge(from, to))
}

pub fn wish(user: u16, change: Change) -> Call {
    Call::Command { user, change }
}

pub fn keep(vault: usize, privilege: u16) -> Call {
    Call::Keep { vault, privilege }
}

pub fn deliver(vault: usize) -> Call {
    Call::Deliver { vault }
}

/// An installation at its beginning, over a bank with these limits.
pub fn begun<B: NewBank + Drop, R: Precedence + Drop>(
    alloc: Global,
    link: usize,
    store: usize,
    rule: R,
) -> Result<Installation<B, R>, AllocError> {
    over(alloc, B::new(alloc, link, store)?, rule)
}

/// One over a bank that is made already.
pub fn over<B: Bank + Drop, R: Precedence + Drop>(
    alloc: Global,
    bank: B,
    rule: R,
) -> Result<Installation<B, R>, AllocError> {
    let naming = begin(alloc, bank, rule).map_err(|_| AllocError)?;
    Ok(Installation::Naming(naming))
}

/// Gives calls one after another; each has to have its answer.
pub fn answered<B: Bank + Drop, R: Precedence + Drop>(
    at: Installation<B, R>,
    rows: &[Row],
) -> Result<Installation<B, R>, Fail> {
    let mut at = at;
    for (call, answer) in rows {
        let (next, said) = give(at, *call);
        at = next;
        claim(said == *answer, "the call has that answer")?;
    }
    Ok(at)
}

/// Gives calls that are all accepted with 0.
pub fn accepted<B: Bank + Drop, R: Precedence + Drop>(
    at: Installation<B, R>,
    calls: &[Call],
) -> Result<Installation<B, R>, Fail> {
    let mut at = at;
    for call in calls {
        let (next, said) = give(at, *call);
        at = next;
        claim(said == ACCEPTED, "the call is accepted")?;
    }
    Ok(at)
}

/// How much waits, is held and is told of at a vault.
pub fn stands_at<B: Bank, R: Precedence>(
    at: &Installation<B, R>,
    vault: usize,
    waiting: usize,
    held: usize,
    told: usize,
) -> bool {
    let office = at.office();
    match office.load(vault) {
        Ok(load) => {
            load.waiting == waiting && load.held == held && office.told_count(vault) == Ok(told)
        }
        Err(_) => false,
    }
}
