use edges::{Change, Edge};
use std::alloc::{AllocError, Global};
use stores::{NewStore, Reader, Store};

/// How large a table is: as many users as roles; how many roles each user is in; how many of the roles,
/// which stand in one chain, have a short cut, and over how many it goes; how many privileges each has,
/// and how many roles have one more.
#[derive(Clone, Copy)]
pub struct Size {
    pub roles: u16,
    memberships: u16,
    cuts: u16,
    cut: u16,
    grants: u16,
    more: u16,
}

/// 500 edges.
pub const LARGE: Size = Size {
    roles: 64,
    memberships: 4,
    cuts: 37,
    cut: 27,
    grants: 2,
    more: 16,
};

/// 50 edges.
pub const SMALL: Size = Size {
    roles: 16,
    memberships: 1,
    cuts: 3,
    cut: 7,
    grants: 1,
    more: 0,
};

// Puts an edge from a user or a role; one that is no vault edge is refused, which none of these are.
fn put<S: Store>(store: &mut S, from: u16, first: u16, place: u16) {
    let to = first.saturating_add(place);
    let _ = store.put(Edge { from, to });
}

// Fills an empty store.
fn fill<S: Store>(store: &mut S, size: Size) {
    for user in 0..size.roles {
        for k in 0..size.memberships {
            let place = user.saturating_mul(7).saturating_add(k.saturating_mul(13)) % size.roles;
            put(store, user, 64, place);
        }
    }
    for k in 0..size.roles {
        let role = 64u16.saturating_add(k);
        if k.saturating_add(1) < size.roles {
            put(store, role, 65, k);
        }
        if k < size.cuts {
            put(store, role, 64u16.saturating_add(size.cut), k);
        }
        for j in 0..size.grants {
            put(
                store,
                role,
                128u16.saturating_add(j),
                k.saturating_mul(size.grants),
            );
        }
        if k < size.more {
            put(store, role, 133, k.saturating_mul(2));
        }
    }
}

/// A store with a table of that size.
pub fn filled<S: NewStore + Drop>(alloc: Global, size: Size) -> Result<S, AllocError> {
    let mut store = S::new(alloc, 512)?;
    fill(&mut store, size);
    Ok(store)
}

/// The edges of a table, ascending.
pub fn edges_of<R: Reader>(alloc: Global, table: &R) -> Result<Vec<Edge>, AllocError> {
    let mut edges = Vec::new(alloc);
    for from in 0..128u16 {
        for to in 64..256u16 {
            let edge = Edge { from, to };
            if table.holds(edge) {
                edges.push(edge)?;
            }
        }
    }
    Ok(edges)
}

/// So many messages: the additions of some edges, over and over.
pub fn messages(alloc: Global, edges: &[Edge], count: usize) -> Result<Vec<Change>, AllocError> {
    edges
        .iter()
        .cycle()
        .take(count)
        .map(|edge| Change::Add(*edge))
        .collect(alloc)
}
