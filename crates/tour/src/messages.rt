use edges::{Change, Edge};
use pairs::Pairs;
use queues::{Packed, Ring};
use refusals::{BankFault, Refusal};
use rows::Rows;
use std::io;
use test_support::delivery::deliver;
use test_support::sample_edges::{CHAIN, GRANT, MEMBER};
use vaults::inspection::inspect;
use vaults::{Bank, Vault};

// An answer as its number: 0, or that of the refusal, as it is shown.
fn number(answer: Result<(), BankFault>) -> u8 {
    match answer {
        Ok(()) => 0,
        Err(fault) => fault.number(),
    }
}

fn show_waiting<B: Bank>(rt: &HostRuntime, bank: &B, vault: usize) -> io::Result<()> {
    let waiting = bank.load(vault).waiting;
    match bank.head(vault) {
        Some(first) => println!(rt; "{waiting} waiting, first {first}"),
        None => println!(rt; "{waiting} waiting"),
    }
}

fn show_table<B: Bank>(rt: &HostRuntime, bank: &B, vault: usize) -> io::Result<()> {
    print!(rt; "    table of vault {vault}: ")?;
    for from in 0u16..128 {
        for to in 64u16..256 {
            let edge = Edge { from, to };
            if bank.holds(vault, edge) {
                print!(rt; "{edge}, ")?;
            }
        }
    }
    let held = bank.load(vault).held;
    println!(rt; "{held} in all")
}

fn send<B: Bank>(rt: &HostRuntime, bank: &mut B, vault: usize, message: Change) -> io::Result<()> {
    let answer = number(bank.send(vault, message));
    print!(rt; "vault {vault}: send {message} answers {answer}; ")?;
    show_waiting(rt, bank, vault)
}

fn deliver_one<B: Bank>(rt: &HostRuntime, bank: &mut B, vault: usize) -> io::Result<()> {
    let answer = number(deliver(bank, vault));
    print!(rt; "vault {vault}: deliver answers {answer}; ")?;
    show_waiting(rt, bank, vault)?;
    show_table(rt, bank, vault)
}

fn put<B: Bank>(rt: &HostRuntime, bank: &mut B, vault: usize, edge: Edge) -> io::Result<()> {
    let answer = number(bank.put(vault, edge));
    println!(rt; "vault {vault}: put {edge} answers {answer}")?;
    show_table(rt, bank, vault)
}

// Whether two vaults of a bank hold the same edges. A bank answers for its vaults by number, so this
// is not the tests' comparison of two readers.
fn same_tables<B: Bank>(bank: &B, one: usize, other: usize) -> bool {
    (0u16..128).all(|from| {
        (64u16..256).all(|to| {
            let edge = Edge { from, to };
            bank.holds(one, edge) == bank.holds(other, edge)
        })
    })
}

// A role chain and its first user reach both vaults, in another order at each; vault 0 is delivered
// to as it is sent to, vault 1 at the end.
fn additions<B: Bank>(rt: &HostRuntime, bank: &mut B) -> io::Result<()> {
    println!(rt; "A role chain and a user, sent in another order to each vault.")?;
    for edge in [CHAIN, GRANT, MEMBER] {
        send(rt, bank, 0, Change::Add(edge))?;
        deliver_one(rt, bank, 0)?;
    }
    for edge in [MEMBER, CHAIN, GRANT] {
        send(rt, bank, 1, Change::Add(edge))?;
    }
    for _ in 0..3 {
        deliver_one(rt, bank, 1)?;
    }
    Ok(())
}

// The privilege is withdrawn from the role at both.
fn withdrawal<B: Bank>(rt: &HostRuntime, bank: &mut B) -> io::Result<()> {
    println!(rt; "The role loses the privilege.")?;
    for vault in [1usize, 0] {
        send(rt, bank, vault, Change::Remove(GRANT))?;
        deliver_one(rt, bank, vault)?;
    }
    let same = same_tables(bank, 0, 1);
    println!(rt; "the two tables are equal: {same}")
}

// What a vault refuses: a link at its limit, a table at its limit, a pair that is no vault edge, and a
// vault that is not there.
fn limits<B: Bank>(rt: &HostRuntime, bank: &mut B) -> io::Result<()> {
    println!(rt; "A vault with link limit 2 and store limit 1.")?;
    for edge in [CHAIN, GRANT, MEMBER] {
        send(rt, bank, 0, Change::Add(edge))?;
    }
    for edge in [CHAIN, GRANT, CHAIN] {
        put(rt, bank, 0, edge)?;
    }
    send(rt, bank, 0, Change::Add(Edge { from: 64, to: 256 }))?;
    send(rt, bank, 1, Change::Add(CHAIN))
}

// Both stories over a bank of two vaults.
fn carry<B: Bank>(rt: &HostRuntime, bank: &mut B) -> io::Result<()> {
    println!(rt;
        "Vault 0: a ring of records and rows of bits. Vault 1: a packed strip and ascending pairs."
    )?;
    let fit = number(inspect(bank));
    println!(rt; "inspect answers {fit}")?;
    additions(rt, bank)?;
    withdrawal(rt, bank)
}

/// Messages travel over two makes of link into two makes of store, and every answer is shown.
pub fn show(rt: &HostRuntime) -> anyhow::Result<()> {
    let alloc = rt.alloc();
    let first = Vault::<Ring, Rows>::new(alloc, 1024, 512)?;
    let second = Vault::<Packed, Pairs>::new(alloc, 1024, 512)?;
    carry(rt, &mut (first, (second, ())))?;
    let only = Vault::<Ring, Pairs>::new(alloc, 2, 1)?;
    limits(rt, &mut (only, ()))?;
    Ok(())
}
