use graph::Graph;
use graph::search::{reached, reaches};
use images::Image;
use pairs::Pairs;
use rows::Rows;
use std::test::Fail;
use stores::{NewStore, Reader, Store};
use test_support::claim::claim;
use test_support::sample_edges::pair;

// Puts edges of a user, of roles, and to privileges.
fn fill<S: Store>(store: &mut S) -> Result<(), Fail> {
    for e in [
        pair(127, 129),
        pair(127, 127),
        pair(127, 128),
        pair(64, 70),
        pair(0, 127),
        pair(64, 65),
        pair(64, 67),
        pair(64, 66),
        pair(64, 128),
        pair(0, 64),
        pair(100, 255),
        pair(100, 254),
    ] {
        claim(store.put(e) == Ok(()), "an edge is put")?;
    }
    Ok(())
}

// The rows of that table, bit k for role 64 + k: both ends of a row, an empty one, two runs in one,
// privileges alone, a run that goes on to privileges, and numbers that are no vertex of a row.
fn tells_rows<R: Reader>(table: &R) -> Result<(), Fail> {
    claim(table.count() == 12, "twelve edges are held")?;
    for (from, word) in [
        (0u16, 0x8000000000000001u64),
        (1, 0),
        (64, 0b100_1110),
        (65, 0),
        (100, 0),
        (101, 0),
        (127, 0x8000000000000000),
        (128, 0),
        (256, 0),
        (65535, 0),
    ] {
        claim(
            table.row(from).word == word,
            "a row has the roles of its vertex",
        )?;
    }
    Ok(())
}

// What is reached in that table, asked of it as of any graph: a graph need not be a reader to be searched.
fn is_searched<G: Graph>(graph: &G) -> Result<(), Fail> {
    for (from, word) in [
        (0u16, 0x8000_0000_0000_004fu64),
        (1, 0),
        (64, 0x4f),
        (127, 0x8000_0000_0000_0000),
        (128, 0),
        (65535, 0),
    ] {
        claim(
            reached(graph, from).word == word,
            "the roles that a vertex reaches",
        )?;
    }
    for (from, to, answer) in [
        (0u16, 129u16, true),
        (0, 70, true),
        (64, 128, true),
        (64, 129, false),
        (0, 254, false),
        (70, 64, false),
        (128, 128, true),
        (65535, 65535, true),
        (65535, 64, false),
    ] {
        claim(
            reaches(graph, from, to) == answer,
            "whether a vertex reaches another",
        )?;
    }
    Ok(())
}

// A vertex with an edge to every role has all bits.
fn tells_full_row<R: Reader>(table: &R) -> Result<(), Fail> {
    claim(table.row(63).word == u64::MAX, "a full row has all roles")?;
    claim(
        table.row(62).word == 0 && table.row(64).word == 0,
        "and its neighbours have none",
    )
}

fn each_way<S: NewStore + Drop>(rt: &HostRuntime) -> Result<(), Fail> {
    let alloc = rt.alloc();
    let mut store = S::new(alloc, 12)?;
    fill(&mut store)?;
    tells_rows(&store)?;
    is_searched(&store)?;
    let mut full = S::new(alloc, 64)?;
    for role in 64..128u16 {
        claim(full.put(pair(63, role)) == Ok(()), "an edge is put")?;
    }
    tells_full_row(&full)
}

#[test]
fn rows(rt: HostRuntime) -> Result<(), Fail> {
    each_way::<Rows>(&rt)
}

#[test]
fn pairs(rt: HostRuntime) -> Result<(), Fail> {
    each_way::<Pairs>(&rt)
}

// The same tables as bytes, written by hand.
#[test]
fn images(_rt: HostRuntime) -> Result<(), Fail> {
    let bytes = [
        0, 7, 0, 64, 0, 1, 0, 127, 0, 1, 64, 65, 0, 3, 64, 70, 0, 1, 64, 128, 0, 1, 100, 254, 0, 2,
        127, 127, 0, 3,
    ];
    let Ok(image) = Image::open(&bytes) else {
        return Err(Fail::new("the bytes are an image"));
    };
    tells_rows(&image)?;
    is_searched(&image)?;
    let Ok(full) = Image::open(&[0, 1, 63, 64, 0, 64]) else {
        return Err(Fail::new("the bytes of a full row are an image"));
    };
    tells_full_row(&full)
}
