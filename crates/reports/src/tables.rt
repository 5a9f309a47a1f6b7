use crate::spelling::Spelt;
use crate::vault_view::look;
use centre::Installation;
use precedence::Precedence;
use std::alloc::Global;
use std::io::Write;
use vaults::Bank;

/// Prints what waits at each vault, and its table. All that waits is delivered by that.
pub fn print_tables<B: Bank + Drop, R: Precedence + Drop, W: Write>(
    alloc: Global,
    at: Installation<B, R>,
    out: &mut W,
) -> anyhow::Result<()> {
    let mut at = at;
    for vault in 0..at.office().vault_count() {
        let (next, view) = look(alloc, at, vault)?;
        at = next;
        let declared = at.office().declared();
        for message in &view.waiting {
            let spelt = Spelt::of(declared, *message);
            let change = spelt.change();
            writeln!(out, "v{vault} waits {change}")?;
        }
        for edge in &view.held {
            let spelt = Spelt::of_edge(declared, *edge);
            let edge = spelt.edge();
            writeln!(out, "v{vault} holds {edge}")?;
        }
    }
    Ok(())
}
