use edges::Change;
use images::Image;
use images::writer::write;
use links::Link;
use pairs::Pairs;
use queues::{Packed, Ring};
use refusals::Refusal;
use rows::Rows;
use sessions::{Session, SessionFault};
use std::io;
use stores::{Reader, Store};
use test_support::delivery::deliver;
use test_support::sample_edges::{CHAIN, GRANT, MEMBER};
use vaults::{Bank, Vault};

// The bytes of an image in hexadecimal, and how many edges it has when it is opened again.
fn show_bytes(rt: &HostRuntime, bytes: &[u8]) -> io::Result<()> {
    print!(rt; "    image:")?;
    for byte in bytes {
        print!(rt; " {byte:02x}")?;
    }
    match Image::open(bytes) {
        Ok(image) => {
            let edges = image.count();
            println!(rt; "; opened again: {edges} edges")
        }
        Err(fault) => {
            let refusal = fault.number();
            println!(rt; "; refused with {refusal}")
        }
    }
}

// The image of a table. The writer asks for no memory: it is lent a buffer, and tells how long the image
// in it is.
fn show_image<R: Reader>(rt: &HostRuntime, table: &R) -> io::Result<()> {
    let mut buffer = [0u8; 2050];
    match write(table, &mut buffer) {
        Ok(length) => show_bytes(rt, buffer.get(..length).unwrap_or_default()),
        Err(fault) => {
            let refusal = fault.number();
            println!(rt; "    refused with {refusal}")
        }
    }
}

// A session of user 2 in role 64 asks for the privilege 128 before and after the role that leads to
// it loses it.
fn asked_twice<L: Link, S: Store>(
    bank: &mut (Vault<L, S>, ()),
) -> Result<(bool, bool), SessionFault> {
    let session = Session::open(2)?;
    match session.activate(&bank.0.store, 64) {
        Ok(active) => {
            let (before, active) = active.ask(&bank.0.store, 128);
            let _ = bank.send(0, Change::Remove(GRANT));
            let _ = deliver(bank, 0);
            let (after, active) = active.ask(&bank.0.store, 128);
            active.close();
            Ok((before?, after?))
        }
        Err((fault, session)) => {
            session.close();
            Err(fault)
        }
    }
}

// A table as an image, and a session over it while the privilege is withdrawn.
fn read_table<L: Link, S: Store>(rt: &HostRuntime, bank: &mut (Vault<L, S>, ())) -> io::Result<()> {
    println!(rt; "A vault's table, read.")?;
    for edge in [CHAIN, GRANT, MEMBER] {
        let _ = bank.send(0, Change::Add(edge));
        let _ = deliver(bank, 0);
    }
    show_image(rt, &bank.0.store)?;
    match asked_twice(bank) {
        Ok((before, after)) => println!(rt;
            "    user 2 in role 64 asks for 128: {before}; once it is withdrawn: {after}"
        )?,
        Err(fault) => {
            let refusal = fault.number();
            println!(rt; "    refused with {refusal}")?;
        }
    }
    show_image(rt, &bank.0.store)
}

/// What reads a table: it is shown as an image and opened again, and a session asks it before and after a
/// withdrawal. Once for each make of store.
pub fn show(rt: &HostRuntime) -> anyhow::Result<()> {
    let alloc = rt.alloc();
    let first = Vault::<Ring, Rows>::new(alloc, 1024, 512)?;
    read_table(rt, &mut (first, ()))?;
    let second = Vault::<Packed, Pairs>::new(alloc, 1024, 512)?;
    read_table(rt, &mut (second, ()))?;
    Ok(())
}
