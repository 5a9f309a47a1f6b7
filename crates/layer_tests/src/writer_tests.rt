use crate::lines_tests::{eight, three};
use edges::Change;
use lines::WriteFault;
use lines::writer::write_command;
use privileges::Privileges;
use refusals::{Layer, Refusal};
use std::test::Fail;
use test_support::claim::claim;
use test_support::sample_edges::{adding, removing};

// A command is written as this line into 200 bytes of 7, and all behind it are left as they were.
fn writes(names: &Privileges, user: u16, change: Change, line: &str) -> Result<(), Fail> {
    let mut out = [7u8; 200];
    let answer = write_command(names, user, change, &mut out);
    claim(answer == Ok(line.len()), "it is so long")?;
    let front = out.get(..line.len()).unwrap_or_default();
    claim(front == line.as_bytes(), "it is written so")?;
    let behind = out.get(line.len()..).unwrap_or_default();
    claim(behind.iter().all(|byte| *byte == 7), "no more is written")
}

// A command is refused, and nothing is written.
fn leaves(
    names: &Privileges,
    user: u16,
    change: Change,
    out: &mut [u8],
    fault: WriteFault,
) -> Result<(), Fail> {
    out.fill(7);
    let answer = write_command(names, user, change, out);
    claim(answer == Err(fault), "it is refused so")?;
    claim(out.iter().all(|byte| *byte == 7), "nothing is written")
}

#[test]
fn plain(rt: HostRuntime) -> Result<(), Fail> {
    let names = three(rt.alloc())?;
    for (user, change, line) in [
        (1, adding(2, 65), "u1 + u2 r1"),
        (0, removing(0, 64), "u0 - u0 r0"),
        (63, adding(127, 255), "u63 + r63 p127"),
        (9, removing(73, 137), "u9 - r9 p9"),
        (10, adding(74, 138), "u10 + r10 p10"),
        (62, adding(126, 227), "u62 + r62 p99"),
        (5, adding(64, 228), "u5 + r0 p100"),
    ] {
        writes(&names, user, change, line)?;
    }
    Ok(())
}

#[test]
fn nested(rt: HostRuntime) -> Result<(), Fail> {
    let names = three(rt.alloc())?;
    for (user, change, line) in [
        (0, adding(66, 256), "u0 + r2 +(u2,r0)"),
        (0, removing(67, 257), "u0 - r3 +(r2,+(u2,r0))"),
        (1, adding(127, 258), "u1 + r63 -(r1,p0)"),
    ] {
        writes(&names, user, change, line)?;
    }
    writes(
        &eight(rt.alloc())?,
        63,
        adding(127, 263),
        "u63 + r63 +(r10,+(r10,+(r10,+(r10,+(r10,+(r10,+(r10,+(r10,p100))))))))",
    )
}

// The user is asked first, then the edge, then the room.
#[test]
fn refused(rt: HostRuntime) -> Result<(), Fail> {
    let names = three(rt.alloc())?;
    let mut short = [0u8; 127];
    let mut enough = [0u8; 128];
    leaves(&names, 64, adding(2, 2), &mut short, WriteFault::NoUser)?;
    leaves(
        &names,
        65535,
        adding(2, 65),
        &mut enough,
        WriteFault::NoUser,
    )?;
    leaves(&names, 63, adding(2, 2), &mut short, WriteFault::NoEdge)?;
    leaves(&names, 63, adding(2, 128), &mut enough, WriteFault::NoEdge)?;
    leaves(&names, 63, adding(64, 259), &mut enough, WriteFault::NoEdge)?;
    leaves(
        &names,
        63,
        adding(64, 65535),
        &mut enough,
        WriteFault::NoEdge,
    )?;
    leaves(&names, 63, adding(2, 65), &mut short, WriteFault::NoRoom)?;
    leaves(&names, 63, adding(2, 65), &mut [], WriteFault::NoRoom)?;
    claim(
        write_command(&names, 63, adding(2, 65), &mut enough) == Ok(11),
        "128 bytes are enough",
    )
}

// The refusals by number, and their layer.
#[test]
fn numbers(_rt: HostRuntime) -> Result<(), Fail> {
    for (fault, number) in [
        (WriteFault::NoUser, 1),
        (WriteFault::NoEdge, 2),
        (WriteFault::NoRoom, 21),
    ] {
        claim(fault.number() == number, "it is listed so")?;
        claim(fault.layer() == Layer::Text, "it is the text's")?;
    }
    Ok(())
}
