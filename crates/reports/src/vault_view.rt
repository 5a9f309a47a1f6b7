use calls::Call;
use centre::Installation;
use centre::running::give;
use edges::{Change, Edge};
use precedence::Precedence;
use std::alloc::{AllocError, Global};
use stores::Reader;
use vaults::Bank;

/// What a vault has: the messages that wait, the oldest first, its table, and the edges that it is told of.
#[derive(Drop)]
pub struct VaultView {
    pub waiting: Vec<Change>,
    pub held: Vec<Edge>,
    pub told: Vec<Edge>,
}

// The edges of a table, ascending.
fn edges_of<R: Reader>(alloc: Global, table: &R) -> Result<Vec<Edge>, AllocError> {
    let mut edges = Vec::with_capacity(alloc, table.count())?;
    for from in 0..128u16 {
        for to in 64..256u16 {
            if table.holds(Edge { from, to }) {
                edges.push(Edge { from, to })?;
            }
        }
    }
    Ok(edges)
}

fn held_at<B: Bank, R: Precedence>(
    alloc: Global,
    at: &Installation<B, R>,
    vault: usize,
) -> Result<Vec<Edge>, AllocError> {
    match at.office().table(vault) {
        Ok(table) => edges_of(alloc, &table),
        Err(_) => Ok(Vec::new(alloc)),
    }
}

/// Looks at a vault, and delivers all that waits there: a link shows its first message alone, and what the
/// table has then is what the vault is told of.
pub fn look<B: Bank + Drop, R: Precedence + Drop>(
    alloc: Global,
    at: Installation<B, R>,
    vault: usize,
) -> Result<(Installation<B, R>, VaultView), AllocError> {
    let held = held_at(alloc, &at, vault)?;
    let count = at.office().load(vault).map_or(0, |load| load.waiting);
    let mut waiting = Vec::with_capacity(alloc, count)?;
    let mut at = at;
    for _ in 0..count {
        if let Ok(Some(message)) = at.office().head(vault) {
            waiting.push(message)?;
        }
        at = give(at, Call::Deliver { vault }).0;
    }
    let told = held_at(alloc, &at, vault)?;
    Ok((
        at,
        VaultView {
            waiting,
            held,
            told,
        },
    ))
}
