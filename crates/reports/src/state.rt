use crate::vault_view::{VaultView, look};
use centre::{Installation, Office};
use edges::Change;
use precedence::Precedence;
use std::alloc::Global;
use std::io::{self, Write};
use vaults::Bank;

// A change as two words and two numbers: `+ 64 65`.
fn print_change<W: Write>(change: Change, out: &mut W) -> io::Result<()> {
    let edge = change.edge();
    match change {
        Change::Add(_) => writeln!(out, "+ {edge}"),
        Change::Remove(_) => writeln!(out, "- {edge}"),
    }
}

// The policy, what is declared, and who keeps what.
fn print_books<B: Bank, R: Precedence, W: Write>(
    office: &Office<B, R>,
    out: &mut W,
) -> io::Result<()> {
    for edge in office.edges() {
        writeln!(out, "policy {edge}")?;
    }
    for vertex in 256..384u16 {
        if let Some(change) = office.declared().get(vertex) {
            write!(out, "declared {vertex} ")?;
            print_change(change, out)?;
        }
    }
    for vault in 0..office.vault_count() {
        for privilege in 128..256u16 {
            if office.keeps(vault, privilege) == Ok(true) {
                writeln!(out, "kept {vault} {privilege}")?;
            }
        }
    }
    Ok(())
}

fn print_vault<W: Write>(vault: usize, view: &VaultView, out: &mut W) -> io::Result<()> {
    for edge in &view.told {
        writeln!(out, "told {vault} {edge}")?;
    }
    for message in &view.waiting {
        write!(out, "wait {vault} ")?;
        print_change(*message, out)?;
    }
    for edge in &view.held {
        writeln!(out, "table {vault} {edge}")?;
    }
    Ok(())
}

/// Prints all that an installation holds, by numbers. All that waits is delivered by that.
pub fn print_state<B: Bank + Drop, R: Precedence + Drop, W: Write>(
    alloc: Global,
    at: Installation<B, R>,
    out: &mut W,
) -> anyhow::Result<()> {
    print_books(at.office(), out)?;
    let mut at = at;
    for vault in 0..at.office().vault_count() {
        let (next, view) = look(alloc, at, vault)?;
        at = next;
        print_vault(vault, &view, out)?;
    }
    Ok(())
}
