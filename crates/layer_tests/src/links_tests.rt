use crate::sample_edges::nth_edge;
use edges::Change;
use links::{Link, NewLink};
use queues::{Packed, Ring};
use refusals::LinkFault;
use std::test::Fail;
use test_support::claim::claim;
use test_support::sample_edges::pair;

// Additions and removals in turn.
fn message(i: u16) -> Change {
    if i % 2 == 0 {
        Change::Add(nth_edge(i))
    } else {
        Change::Remove(nth_edge(i))
    }
}

// Strikes `limit` messages, which are the first ones in their order.
fn empties<L: Link>(link: &mut L, limit: u16) -> Result<(), Fail> {
    for i in 0..limit {
        claim(
            link.head() == Some(message(i)),
            "the messages come in their order",
        )?;
        link.strike();
    }
    Ok(())
}

// A link takes as many messages as its limit, refuses the next, and gives them back in their order.
fn fills<L: Link>(link: &mut L, limit: u16) -> Result<(), Fail> {
    claim(
        link.limit() == usize::from(limit),
        "the limit is the wanted one",
    )?;
    for i in 0..limit {
        claim(link.send(message(i)) == Ok(()), "a message is sent")?;
    }
    claim(
        link.send(message(limit)) == Err(LinkFault::Full),
        "one message too many is refused",
    )?;
    claim(link.count() == usize::from(limit), "as many wait as may")?;
    empties(link, limit)?;
    link.strike();
    claim(
        link.count() == 0 && link.head() == None,
        "none waits at the end",
    )?;
    Ok(())
}

// Two messages always wait while a hundred go by, so that the places come round many times.
fn goes_round<L: Link>(link: &mut L) -> Result<(), Fail> {
    claim(link.send(message(0)) == Ok(()), "a first message is sent")?;
    for i in 1u16..100 {
        claim(link.send(message(i)) == Ok(()), "another is sent")?;
        claim(
            link.head() == Some(message(i - 1)),
            "the oldest comes first",
        )?;
        link.strike();
    }
    claim(
        link.count() == 1 && link.head() == Some(message(99)),
        "one is left",
    )?;
    Ok(())
}

// What is no vault edge is refused first, also by a full link; nothing is altered.
fn refuses<L: Link>(link: &mut L) -> Result<(), Fail> {
    claim(
        link.send(Change::Add(pair(0, 128))) == Err(LinkFault::NoVaultEdge),
        "what is no vault edge is refused",
    )?;
    claim(link.send(message(0)) == Ok(()), "a message is sent")?;
    claim(link.send(message(1)) == Ok(()), "a second is sent")?;
    claim(
        link.send(Change::Remove(pair(64, 256))) == Err(LinkFault::NoVaultEdge),
        "what is no vault edge is refused first",
    )?;
    claim(
        link.send(message(2)) == Err(LinkFault::Full),
        "a full link refuses",
    )?;
    claim(
        link.count() == 2 && link.head() == Some(message(0)),
        "nothing was altered",
    )?;
    Ok(())
}

// One make of link, from its smallest limit to its largest.
fn each_way<L: NewLink + Drop>(rt: &HostRuntime) -> Result<(), Fail> {
    let alloc = rt.alloc();
    fills(&mut L::new(alloc, 2)?, 2)?;
    fills(&mut L::new(alloc, 1024)?, 1024)?;
    goes_round(&mut L::new(alloc, 3)?)?;
    refuses(&mut L::new(alloc, 2)?)?;
    for wrong in [0usize, 1, 1025, 18446744073709551615] {
        claim(L::new(alloc, wrong)?.limit() == 0, "a wrong limit is 0")?;
    }
    Ok(())
}

#[test]
fn rings(rt: HostRuntime) -> Result<(), Fail> {
    each_way::<Ring>(&rt)
}

#[test]
fn strips(rt: HostRuntime) -> Result<(), Fail> {
    each_way::<Packed>(&rt)
}
