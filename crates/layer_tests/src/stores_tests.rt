use crate::sample_edges::nth_edge;
use edge_sets::places::find;
use edges::Edge;
use pairs::Pairs;
use refusals::StoreFault;
use rows::Rows;
use std::test::Fail;
use stores::{NewStore, Reader, Store};
use test_support::claim::claim;
use test_support::sample_edges::pair;

// Puts the first `n` edges: each is taken and is held.
fn takes<S: Store>(store: &mut S, n: u16) -> Result<(), Fail> {
    for i in 0..n {
        claim(store.put(nth_edge(i)) == Ok(()), "an edge is put")?;
        claim(store.holds(nth_edge(i)), "and is held then")?;
    }
    Ok(())
}

// A store takes as many edges as its limit and refuses the next, but not one that it holds; what is
// dropped makes room again.
fn fills<S: Store>(store: &mut S, limit: u16) -> Result<(), Fail> {
    claim(
        store.limit() == usize::from(limit),
        "the limit is the wanted one",
    )?;
    takes(store, limit)?;
    claim(
        store.put(nth_edge(limit)) == Err(StoreFault::Full),
        "one edge too many is refused",
    )?;
    claim(!store.holds(nth_edge(limit)), "and is not held")?;
    claim(
        store.count() == usize::from(limit),
        "as many are held as may be",
    )?;
    takes(store, limit)?;
    store.drop(nth_edge(0));
    claim(!store.holds(nth_edge(0)), "what was dropped is gone")?;
    claim(store.put(nth_edge(limit)) == Ok(()), "it made room")?;
    claim(
        store.count() == usize::from(limit),
        "as many are held as before",
    )?;
    Ok(())
}

// What is no vault edge is refused and never held.
fn refuses<S: Store>(store: &mut S) -> Result<(), Fail> {
    for e in [pair(64, 63), pair(0, 128), pair(128, 64), pair(64, 256)] {
        claim(
            store.put(e) == Err(StoreFault::NoVaultEdge),
            "what is no vault edge is refused",
        )?;
        claim(!store.holds(e), "and is never held")?;
        store.drop(e);
    }
    claim(store.count() == 0, "nothing is held")?;
    Ok(())
}

// The corners of the table, put out of order; dropping one edge leaves its neighbours.
fn corners<S: Store>(store: &mut S) -> Result<(), Fail> {
    for e in [
        pair(127, 255),
        pair(0, 64),
        pair(63, 127),
        pair(64, 64),
        pair(127, 127),
    ] {
        claim(store.put(e) == Ok(()), "a corner is put")?;
    }
    store.drop(pair(127, 254));
    store.drop(pair(127, 127));
    claim(!store.holds(pair(127, 127)), "what was dropped is gone")?;
    for e in [pair(127, 255), pair(0, 64), pair(63, 127), pair(64, 64)] {
        claim(store.holds(e), "what was not dropped is held")?;
    }
    claim(store.count() == 4, "four corners are held")?;
    Ok(())
}

// One make of store, from its smallest table to its largest.
fn each_way<S: NewStore + Drop>(rt: &HostRuntime) -> Result<(), Fail> {
    let alloc = rt.alloc();
    fills(&mut S::new(alloc, 1)?, 1)?;
    fills(&mut S::new(alloc, 512)?, 512)?;
    refuses(&mut S::new(alloc, 1)?)?;
    corners(&mut S::new(alloc, 512)?)?;
    for wrong in [0usize, 513, 18446744073709551615] {
        claim(S::new(alloc, wrong)?.limit() == 0, "a wrong limit is 0")?;
    }
    Ok(())
}

#[test]
fn rows(rt: HostRuntime) -> Result<(), Fail> {
    each_way::<Rows>(&rt)
}

#[test]
fn pairs(rt: HostRuntime) -> Result<(), Fail> {
    each_way::<Pairs>(&rt)
}

// Whether a search in a list ends where the edge stands, or where its neighbours are on either side of it.
fn ends_at_its_place(edges: &[Edge], edge: Edge) -> bool {
    match find(edges, edge) {
        Ok(at) => edges.get(at) == Some(&edge),
        Err(at) => {
            let (front, behind) = edges.split_at(at);
            front.last().is_none_or(|e| *e < edge) && behind.first().is_none_or(|e| edge < *e)
        }
    }
}

// Lists that ascend, descend, turn, and have an edge twice.
#[test]
fn searches(_rt: HostRuntime) -> Result<(), Fail> {
    let edges = [pair(2, 64), pair(64, 65), pair(64, 70), pair(127, 128)];
    let [a, b, c, d] = edges;
    for edge in [a, b, c, d, pair(0, 64), pair(64, 66), pair(127, 255)] {
        claim(ends_at_its_place(&[], edge), "in the empty list")?;
        claim(ends_at_its_place(&edges, edge), "in a list that ascends")?;
        claim(
            ends_at_its_place(&[d, c, b, a], edge),
            "in one that descends",
        )?;
        claim(ends_at_its_place(&[c, d, a, b], edge), "in one that turns")?;
        claim(
            ends_at_its_place(&[b, b, a, b, b], edge),
            "with edges twice",
        )?;
    }
    claim(find(&edges, c) == Ok(2), "an edge is found where it stands")?;
    claim(
        find(&edges, pair(64, 66)) == Err(2),
        "and would go between its neighbours",
    )
}
