use edges::Change;
use privileges::{DeclareFault, Privileges};
use std::test::Fail;
use test_support::claim::claim;
use test_support::sample_edges::pair;

fn adding(from: u16, to: u16) -> Change {
    Change::Add(pair(from, to))
}

fn removing(from: u16, to: u16) -> Change {
    Change::Remove(pair(from, to))
}

// Each declaring, in turn, has its answer.
fn declares(
    names: &mut Privileges,
    rows: &[(Change, Result<u16, DeclareFault>)],
) -> Result<(), Fail> {
    for (change, answer) in rows {
        claim(names.declare(*change) == *answer, "a declaring answers so")?;
    }
    Ok(())
}

// Declares +(r0,p0), and seven more in one another: each is the right to give r0 the one before it.
fn nest(names: &mut Privileges) -> Result<(), Fail> {
    claim(
        names.declare(adding(64, 128)) == Ok(256),
        "one that is about a user privilege",
    )?;
    for inner in 256u16..263 {
        claim(
            names.declare(adding(64, inner)) == Ok(inner + 1),
            "one around the last",
        )?;
    }
    Ok(())
}

// Declares the rights to add the edges to r1 from the vertices `first` on, before `last`.
fn fill(names: &mut Privileges, first: u16, last: u16) -> Result<(), Fail> {
    for from in first..last {
        claim(
            names.declare(adding(from, 65)).is_ok(),
            "there is room for another",
        )?;
    }
    Ok(())
}

#[test]
fn numbers(rt: HostRuntime) -> Result<(), Fail> {
    let mut names = Privileges::new(rt.alloc())?;
    declares(
        &mut names,
        &[
            (adding(2, 64), Ok(256)),
            (adding(2, 64), Ok(256)),
            (adding(66, 256), Ok(257)),
            (removing(65, 128), Ok(258)),
            (removing(2, 64), Ok(259)),
            (adding(66, 259), Ok(260)),
            (adding(66, 256), Ok(257)),
            (adding(2, 64), Ok(256)),
            (adding(64, 64), Ok(261)),
        ],
    )?;
    claim(names.count() == 6, "six are declared")
}

// No edges, and edges to privileges that are not declared.
#[test]
fn no_edges(rt: HostRuntime) -> Result<(), Fail> {
    let mut names = Privileges::new(rt.alloc())?;
    declares(
        &mut names,
        &[
            (adding(66, 256), Err(DeclareFault::NoEdge)),
            (adding(2, 64), Ok(256)),
            (adding(64, 2), Err(DeclareFault::NoEdge)),
            (removing(2, 128), Err(DeclareFault::NoEdge)),
            (adding(2, 256), Err(DeclareFault::NoEdge)),
            (adding(256, 64), Err(DeclareFault::NoEdge)),
            (adding(128, 256), Err(DeclareFault::NoEdge)),
            (adding(66, 257), Err(DeclareFault::NoEdge)),
            (adding(66, 383), Err(DeclareFault::NoEdge)),
            (adding(66, 384), Err(DeclareFault::NoEdge)),
            (adding(66, 65535), Err(DeclareFault::NoEdge)),
            (adding(65535, 64), Err(DeclareFault::NoEdge)),
        ],
    )?;
    claim(names.count() == 1, "a refused one is not declared")
}

#[test]
fn nested(rt: HostRuntime) -> Result<(), Fail> {
    let mut names = Privileges::new(rt.alloc())?;
    nest(&mut names)?;
    declares(
        &mut names,
        &[
            (adding(64, 263), Err(DeclareFault::TooDeep)),
            (removing(64, 263), Err(DeclareFault::TooDeep)),
            (adding(64, 264), Err(DeclareFault::NoEdge)),
            (adding(64, 262), Ok(263)),
            (removing(64, 262), Ok(264)),
            (adding(127, 264), Err(DeclareFault::TooDeep)),
        ],
    )?;
    claim(names.count() == 9, "eight in one another and a ninth")
}

// With 128 declared one of old is still answered, and a new one is asked first whether it is an edge,
// then whether it is nested too deep.
#[test]
fn full(rt: HostRuntime) -> Result<(), Fail> {
    let mut names = Privileges::new(rt.alloc())?;
    nest(&mut names)?;
    fill(&mut names, 0, 119)?;
    claim(names.count() == 127, "one less than may be")?;
    declares(
        &mut names,
        &[
            (adding(126, 65), Ok(383)),
            (adding(127, 65), Err(DeclareFault::NamesFull)),
            (removing(64, 383), Err(DeclareFault::NamesFull)),
            (adding(126, 65), Ok(383)),
            (adding(64, 128), Ok(256)),
            (adding(64, 262), Ok(263)),
            (adding(64, 263), Err(DeclareFault::TooDeep)),
            (adding(64, 384), Err(DeclareFault::NoEdge)),
        ],
    )?;
    claim(names.count() == 128, "as many as may be")
}

// What the numbers around the first and the last are the right to.
#[test]
fn looked_up(rt: HostRuntime) -> Result<(), Fail> {
    let mut names = Privileges::new(rt.alloc())?;
    assert!(rt; names.count() == 0 && names.get(256) == None);
    assert!(rt; names.find(adding(0, 65)) == None);
    fill(&mut names, 0, 128)?;
    assert!(rt; names.get(0) == None && names.get(255) == None);
    assert!(rt; names.get(256) == Some(adding(0, 65)));
    assert!(rt; names.get(383) == Some(adding(127, 65)));
    assert!(rt; names.get(384) == None && names.get(65535) == None);
    assert!(rt; names.find(adding(0, 65)) == Some(256));
    assert!(rt; names.find(adding(127, 65)) == Some(383));
    assert!(rt; names.find(removing(0, 65)) == None);
    assert!(rt; names.find(adding(65, 0)) == None);
    Ok(())
}

// An edge to an administrative privilege is one from its declaring on.
#[test]
fn edges_declared(rt: HostRuntime) -> Result<(), Fail> {
    let mut names = Privileges::new(rt.alloc())?;
    assert!(rt; names.has_edge(pair(64, 255)) && !names.has_edge(pair(64, 256)));
    fill(&mut names, 0, 1)?;
    assert!(rt; names.has_edge(pair(64, 256)) && !names.has_edge(pair(64, 257)));
    assert!(rt; !names.has_edge(pair(0, 256)) && !names.has_edge(pair(256, 64)));
    fill(&mut names, 1, 128)?;
    assert!(rt; names.has_edge(pair(127, 383)) && !names.has_edge(pair(127, 384)));
    assert!(rt; names.has_edge(pair(127, 255)) && !names.has_edge(pair(127, 65535)));
    assert!(rt; names.has_edge(pair(63, 127)) && !names.has_edge(pair(63, 128)));
    Ok(())
}
