use calls::Call;
use edges::Change;
use lines::TextFault;
use lines::reader::{read_call, read_command};
use privileges::Privileges;
use refusals::{Layer, Place, Refusal};
use std::alloc::Global;
use std::test::Fail;
use test_support::claim::claim;
use test_support::sample_edges::{adding, pair, removing};

fn malformed(column: usize) -> TextFault {
    TextFault::Malformed { column }
}

fn out_of_range(column: usize) -> TextFault {
    TextFault::OutOfRange { column }
}

fn too_deep(column: usize) -> TextFault {
    TextFault::TooDeep { column }
}

fn undeclared(column: usize) -> TextFault {
    TextFault::Undeclared { column }
}

fn wish(user: u16, change: Change) -> Call {
    Call::Command { user, change }
}

// Whether two calls are the same; of the calls that a line can say.
fn same(one: Call, other: Call) -> bool {
    match (one, other) {
        (Call::Declare(change), Call::Declare(wanted)) => change == wanted,
        (
            Call::Keep { vault, privilege },
            Call::Keep {
                vault: place,
                privilege: wanted,
            },
        ) => vault == place && privilege == wanted,
        (Call::Seat(edge), Call::Seat(wanted)) => edge == wanted,
        (Call::Open, Call::Open) => true,
        (
            Call::Command { user, change },
            Call::Command {
                user: who,
                change: wanted,
            },
        ) => user == who && change == wanted,
        (Call::Deliver { vault }, Call::Deliver { vault: place }) => vault == place,
        _ => false,
    }
}

fn declare(names: &mut Privileges, change: Change, number: u16) -> Result<(), Fail> {
    claim(
        names.declare(change) == Ok(number),
        "a privilege is declared",
    )
}

// 256 is +(u2,r0), 257 is +(r2,256), 258 is -(r1,p0).
pub(crate) fn three(alloc: Global) -> Result<Privileges, Fail> {
    let mut names = Privileges::new(alloc)?;
    declare(&mut names, adding(2, 64), 256)?;
    declare(&mut names, adding(66, 256), 257)?;
    declare(&mut names, removing(65, 128), 258)?;
    Ok(names)
}

// Eight in one another: 256 is +(r10,p100), and each other is the right to give r10 the one before it.
pub(crate) fn eight(alloc: Global) -> Result<Privileges, Fail> {
    let mut names = Privileges::new(alloc)?;
    declare(&mut names, adding(74, 228), 256)?;
    for inner in 256u16..263 {
        declare(&mut names, adding(74, inner), inner + 1)?;
    }
    Ok(names)
}

// Each line says its call.
fn says(names: &Privileges, rows: &[(&str, Call)]) -> Result<(), Fail> {
    for (line, call) in rows {
        match read_call(names, line.as_bytes()) {
            Ok(read) => claim(same(read, *call), line)?,
            Err(_) => return Err(Fail::new(line)),
        }
    }
    Ok(())
}

// Each line is refused so.
fn refuses(names: &Privileges, rows: &[(&str, TextFault)]) -> Result<(), Fail> {
    for (line, fault) in rows {
        claim(
            read_call(names, line.as_bytes()).err() == Some(*fault),
            line,
        )?;
    }
    Ok(())
}

#[test]
fn commands(rt: HostRuntime) -> Result<(), Fail> {
    let names = three(rt.alloc())?;
    says(
        &names,
        &[
            ("u1 + u2 r1", wish(1, adding(2, 65))),
            ("u63 - r63 p127", wish(63, removing(127, 255))),
            ("u0 + r2 +(u2,r0)", wish(0, adding(66, 256))),
            ("u0 - r0 +(r2,+(u2,r0))", wish(0, removing(64, 257))),
            ("u10 + r59 -(r1,p0)", wish(10, adding(123, 258))),
            ("u9 - p0 u0", wish(9, removing(128, 0))),
            ("u0 + -(r1,p0) +(r2,+(u2,r0))", wish(0, adding(258, 257))),
        ],
    )
}

#[test]
fn script_lines(rt: HostRuntime) -> Result<(), Fail> {
    let names = three(rt.alloc())?;
    says(
        &names,
        &[
            ("D +(u2,r0)", Call::Declare(adding(2, 64))),
            ("D -(u2,r0)", Call::Declare(removing(2, 64))),
            ("D +(r1,+(u2,r0))", Call::Declare(adding(65, 256))),
            ("D -(+(u2,r0),-(r1,p0))", Call::Declare(removing(256, 258))),
            ("D +(p127,u63)", Call::Declare(adding(255, 63))),
            (
                "K p0 v0",
                Call::Keep {
                    vault: 0,
                    privilege: 128,
                },
            ),
            (
                "K u63 v7",
                Call::Keep {
                    vault: 7,
                    privilege: 63,
                },
            ),
            (
                "K -(r1,p0) v2",
                Call::Keep {
                    vault: 2,
                    privilege: 258,
                },
            ),
            ("S r0 r1", Call::Seat(pair(64, 65))),
            ("S u2 u3", Call::Seat(pair(2, 3))),
            ("S +(u2,r0) +(r2,+(u2,r0))", Call::Seat(pair(256, 257))),
            ("O", Call::Open),
            ("T v0", Call::Deliver { vault: 0 }),
            ("T v7", Call::Deliver { vault: 7 }),
        ],
    )
}

// The numbers of users: a zero in front, no digits, and a first word that is no user.
#[test]
fn first_words(rt: HostRuntime) -> Result<(), Fail> {
    let names = three(rt.alloc())?;
    refuses(
        &names,
        &[
            ("", malformed(0)),
            ("u01 + u2 r1", malformed(2)),
            ("u00 + u2 r1", malformed(2)),
            ("u064 + u2 r1", malformed(2)),
            ("u064", malformed(2)),
            ("u + u2 r1", malformed(1)),
            ("u-1 + u2 r1", malformed(1)),
            ("u6a + u2 r1", malformed(2)),
            ("u63x", malformed(3)),
            ("r1 + u2 r1", malformed(0)),
            ("r64 + u2 r1", malformed(0)),
            ("r64x", malformed(0)),
            ("p1 + u2 r1", malformed(0)),
            ("v1 + u2 r1", malformed(0)),
            ("+(u2,r0) + u2 r1", malformed(0)),
            ("1 + u2 r1", malformed(0)),
            ("U1 + u2 r1", malformed(0)),
            ("d +(u2,r0)", malformed(0)),
            ("k p0 v0", malformed(0)),
            ("s r0 r1", malformed(0)),
            ("o", malformed(0)),
            ("t v0", malformed(0)),
            ("X", malformed(0)),
        ],
    )
}

// Nothing is trimmed, and a space is one space.
#[test]
fn spaces(rt: HostRuntime) -> Result<(), Fail> {
    let names = three(rt.alloc())?;
    refuses(
        &names,
        &[
            (" u1 + u2 r1", malformed(0)),
            ("u1  + u2 r1", malformed(3)),
            ("u1 +  u2 r1", malformed(5)),
            ("u1 + u2  r1", malformed(8)),
            ("u1 + u2 r1 ", malformed(10)),
            ("u1+ u2 r1", malformed(2)),
            ("u1 +u2 r1", malformed(4)),
            ("u1 + u2,r1", malformed(7)),
            ("u1 + u2 r1\r", malformed(10)),
            ("u1 + u2 r1\n", malformed(10)),
            ("\tu1 + u2 r1", malformed(0)),
            ("u1\t+ u2 r1", malformed(2)),
            ("u1 +\tu2 r1", malformed(4)),
            ("u1 + u2\tr1", malformed(7)),
            ("u1 + +(u2, r0) r1", malformed(10)),
            ("u1 + +( u2,r0) r1", malformed(7)),
            ("u1 + + (u2,r0) r1", malformed(6)),
            ("u1 + +(u2,r0 ) r1", malformed(12)),
        ],
    )
}

// What is no node, or no number, at the end of a command and inside its brackets.
#[test]
fn nodes(rt: HostRuntime) -> Result<(), Fail> {
    let names = three(rt.alloc())?;
    refuses(
        &names,
        &[
            ("u1 * u2 r1", malformed(3)),
            ("u1 + U2 r1", malformed(5)),
            ("u1 + u2 R1", malformed(8)),
            ("u1 + v2 r1", malformed(5)),
            ("u1 + u2 v1", malformed(8)),
            ("u1 + 2 r1", malformed(5)),
            ("u1 + u02 r1", malformed(7)),
            ("u1 + u2 r01", malformed(10)),
            ("u1 + u2 r1x", malformed(10)),
            ("u1 + u2 r+1", malformed(9)),
            ("u1 + (u2,r0) r1", malformed(5)),
            ("u1 + + u2", malformed(6)),
            ("u1 + +u2 r1", malformed(6)),
            ("u1 + +() r1", malformed(7)),
            ("u1 + +(,r0) r1", malformed(7)),
            ("u1 + +(u2 r0) r1", malformed(9)),
            ("u1 + +(u2) r1", malformed(9)),
            ("u1 + +(u2,r0 r1", malformed(12)),
            ("u1 + +(u2,r0,p0) r1", malformed(12)),
            ("u1 + +(u2,r00) r1", malformed(12)),
            ("u1 + +(u2,v0) r1", malformed(10)),
            ("u1 + +(u2,r0)) r1", malformed(13)),
        ],
    )
}

// A number out of range is refused at its letter and is all of its digits; the smaller column wins.
#[test]
fn ranges(rt: HostRuntime) -> Result<(), Fail> {
    let names = three(rt.alloc())?;
    refuses(
        &names,
        &[
            ("u64 + u2 r1", out_of_range(0)),
            ("u99 + u2 r1", out_of_range(0)),
            ("u630 + u2 r1", out_of_range(0)),
            ("u64", out_of_range(0)),
            ("u64x", out_of_range(0)),
            ("u64 * u2 r1", out_of_range(0)),
            ("u100000000000000000000", out_of_range(0)),
            ("u65536 + u2 r1", out_of_range(0)),
            ("u65537 + u2 r1", out_of_range(0)),
            ("u4294967297 + u2 r1", out_of_range(0)),
            ("u18446744073709551617 + u2 r1", out_of_range(0)),
            ("u1 + u64 r1", out_of_range(5)),
            ("u1 + u64", out_of_range(5)),
            ("u1 + u64 r99", out_of_range(5)),
            ("u1 * u64 r1", malformed(3)),
            ("u1 + r64 p1", out_of_range(5)),
            ("u1 + u2 r64", out_of_range(8)),
            ("u1 + u2 r64 ", out_of_range(8)),
            ("u1 + r2 p128", out_of_range(8)),
            ("u1 + r2 p1000", out_of_range(8)),
            ("u1 + +(u64,r0) r1", out_of_range(7)),
            ("u1 + +(u2,r64) r1", out_of_range(10)),
            ("u1 + +(u2,r64 r1", out_of_range(10)),
            ("u1 + +(u2;r64) r1", malformed(9)),
        ],
    )
}

#[test]
fn script_lines_refused(rt: HostRuntime) -> Result<(), Fail> {
    let names = three(rt.alloc())?;
    refuses(
        &names,
        &[
            ("K p0 v8", out_of_range(5)),
            ("K p0 v10", out_of_range(5)),
            ("K p0 v08", malformed(7)),
            ("K p0 v0 ", malformed(7)),
            ("K p0 u0", malformed(5)),
            ("K p128 v0", out_of_range(2)),
            ("K p128 v8", out_of_range(2)),
            ("K v0 v0", malformed(2)),
            ("K  p0 v0", malformed(2)),
            ("Kp0 v0", malformed(1)),
            ("T v8", out_of_range(2)),
            ("T v70", out_of_range(2)),
            ("T v100000000000000000000", out_of_range(2)),
            ("T v08", malformed(4)),
            ("T v7x", malformed(4)),
            ("T  v7", malformed(2)),
            ("T u0", malformed(2)),
            ("S r64 r1", out_of_range(2)),
            ("S r0 r64", out_of_range(5)),
            ("S r0 v1", malformed(5)),
            ("S r00 r1", malformed(4)),
            ("S r0  r1", malformed(5)),
            ("S r0 r1 ", malformed(7)),
            ("S\tr0 r1", malformed(1)),
            ("O ", malformed(1)),
            ("OO", malformed(1)),
        ],
    )
}

// The node of a declaring begins with a sign.
#[test]
fn declarings_refused(rt: HostRuntime) -> Result<(), Fail> {
    let names = three(rt.alloc())?;
    refuses(
        &names,
        &[
            ("D u2", malformed(2)),
            ("D (u2,r0)", malformed(2)),
            ("D  +(u2,r0)", malformed(2)),
            ("D+(u2,r0)", malformed(1)),
            ("D +u2", malformed(3)),
            ("D +( u2,r0)", malformed(4)),
            ("D +(u2,r0", malformed(9)),
            ("D +(u2,r0) ", malformed(10)),
            ("D +(u2,r0))", malformed(10)),
            ("D +(u02,r0)", malformed(6)),
            ("D +(u64,r0)", out_of_range(4)),
            ("D +(u2,r64)", out_of_range(7)),
            ("D +(u64,r64", out_of_range(4)),
        ],
    )
}

// Privileges that are not declared are asked for last, from the left; the outer one of a nest first.
#[test]
fn not_declared(rt: HostRuntime) -> Result<(), Fail> {
    let names = three(rt.alloc())?;
    refuses(
        &names,
        &[
            ("u0 + r2 +(u3,r0)", undeclared(8)),
            ("u0 + r0 -(u2,r0)", undeclared(8)),
            ("u0 + r0 +(r0,u2)", undeclared(8)),
            ("u0 + r0 +(r2,+(u3,r0))", undeclared(8)),
            ("u0 + r0 +(+(u2,r0),r0)", undeclared(8)),
            ("u0 + +(u3,r0) +(u4,r0)", undeclared(5)),
            ("u0 + +(u2,r0) +(u4,r0)", undeclared(14)),
            ("u10 + r1 +(u3,r0)", undeclared(9)),
            ("S r0 +(r1,+(u2,r0))", undeclared(5)),
            ("S +(u3,r0) +(u4,r0)", undeclared(2)),
            ("S +(u2,r0) +(u4,r0)", undeclared(11)),
            ("K +(u3,r0) v0", undeclared(2)),
            ("D +(r1,+(r1,+(u2,r0)))", undeclared(7)),
            ("D +(r1,+(r2,+(u3,r0)))", undeclared(7)),
            ("D +(+(u3,r0),+(u4,r0))", undeclared(4)),
            ("D +(+(u2,r0),+(u4,r0))", undeclared(13)),
            ("K +(u3,r0) v8", out_of_range(11)),
            ("u0 + +(u3,r0) r64", out_of_range(14)),
            ("u64 + +(u3,r0) r1", out_of_range(0)),
            ("u0 + +(u3,r0) r1 ", malformed(16)),
            ("D +(+(u3,r0),r64)", out_of_range(13)),
        ],
    )
}

#[test]
fn nothing_declared(rt: HostRuntime) -> Result<(), Fail> {
    let names = Privileges::new(rt.alloc())?;
    says(&names, &[("D +(u2,r0)", Call::Declare(adding(2, 64)))])?;
    refuses(
        &names,
        &[
            ("S r0 +(r1,+(u2,r0))", undeclared(5)),
            ("D +(r1,+(u2,r0))", undeclared(7)),
            ("u0 + r2 +(u2,r0)", undeclared(8)),
        ],
    )
}

// Every front of a good line is refused at its length.
fn fronts(names: &Privileges, line: &str) -> Result<(), Fail> {
    let bytes = line.as_bytes();
    for length in 0..bytes.len() {
        claim(
            read_call(names, &bytes[..length]).err() == Some(malformed(length)),
            line,
        )?;
    }
    claim(read_call(names, bytes).is_ok(), line)
}

#[test]
fn early_ends(rt: HostRuntime) -> Result<(), Fail> {
    let names = three(rt.alloc())?;
    for line in [
        "u1 + u2 r1",
        "u0 - r0 +(r2,+(u2,r0))",
        "D +(r1,+(u2,r0))",
        "K -(r1,p0) v2",
        "S r0 r1",
        "O",
        "T v7",
    ] {
        fronts(&names, line)?;
    }
    Ok(())
}

// Bytes that are no text.
#[test]
fn high_bytes(rt: HostRuntime) -> Result<(), Fail> {
    let names = three(rt.alloc())?;
    let command = b"u1 + u2 r1\x80";
    assert!(rt; read_call(&names, command).err() == Some(malformed(10)));
    let number = b"u1 + u2 r\xb1";
    assert!(rt; read_call(&names, number).err() == Some(malformed(9)));
    let space = b"u1\xa0+ u2 r1";
    assert!(rt; read_call(&names, space).err() == Some(malformed(2)));
    let letter = b"\xff";
    assert!(rt; read_call(&names, letter).err() == Some(malformed(0)));
    let zero = b"u1\x00+ u2 r1";
    assert!(rt; read_call(&names, zero).err() == Some(malformed(2)));
    Ok(())
}

// With this byte in place of another, the column where `u1 + u2 r1` is wrong; none where it is good.
// A letter of another line asks for a space at 1, and an O for the end; a digit in place of a space
// makes a number of two digits, in front of a byte that is no space; a sign in place of a letter asks
// for a bracket.
fn wrong_at(place: usize, byte: u8) -> Option<usize> {
    let good = match place {
        0 => byte == b'u',
        1 | 6 | 9 => byte.is_ascii_digit(),
        2 | 4 | 7 => byte == b' ',
        3 => byte == b'+' || byte == b'-',
        5 | 8 => byte == b'u' || byte == b'r' || byte == b'p',
        _ => false,
    };
    let one_later = match place {
        0 => byte == b'D' || byte == b'K' || byte == b'S' || byte == b'O' || byte == b'T',
        2 | 7 => byte.is_ascii_digit(),
        5 | 8 => byte == b'+' || byte == b'-',
        _ => false,
    };
    if good {
        None
    } else if one_later {
        Some(place.saturating_add(1))
    } else {
        Some(place)
    }
}

// A good line with each byte in turn at a place of it.
fn each_byte(names: &Privileges, place: usize) -> Result<(), Fail> {
    for byte in 0u8..=255 {
        let mut line = *b"u1 + u2 r1";
        if let Some(old) = line.get_mut(place) {
            *old = byte;
        }
        claim(
            read_call(names, &line).err() == wrong_at(place, byte).map(malformed),
            "a line with one byte changed",
        )?;
    }
    Ok(())
}

#[test]
fn bytes_changed(rt: HostRuntime) -> Result<(), Fail> {
    let names = three(rt.alloc())?;
    for place in 0usize..10 {
        each_byte(&names, place)?;
    }
    for place in 0usize..11 {
        each_byte_of_more(&names, place)?;
    }
    Ok(())
}

// The same of `u6 + r6 p12`, where a digit in place of a space may make a number out of range, and a
// zero may come to stand in front of a digit.
fn refused_at(place: usize, byte: u8) -> Option<TextFault> {
    let digit = byte.is_ascii_digit();
    match place {
        2 if digit && byte > b'3' => Some(out_of_range(0)),
        7 if digit && byte > b'3' => Some(out_of_range(5)),
        9 if byte == b'0' => Some(malformed(10)),
        10 if digit => None,
        10 => Some(malformed(10)),
        _ => wrong_at(place, byte).map(malformed),
    }
}

fn each_byte_of_more(names: &Privileges, place: usize) -> Result<(), Fail> {
    for byte in 0u8..=255 {
        let mut line = *b"u6 + r6 p12";
        if let Some(old) = line.get_mut(place) {
            *old = byte;
        }
        claim(
            read_call(names, &line).err() == refused_at(place, byte),
            "a line of larger numbers with one byte changed",
        )?;
    }
    Ok(())
}

// The ninth sign of a nest is refused, whatever comes after it and however it is nested.
#[test]
fn ninth_signs(rt: HostRuntime) -> Result<(), Fail> {
    let names = three(rt.alloc())?;
    refuses(
        &names,
        &[
            (
                "S r0 +(r0,+(r0,+(r0,+(r0,+(r0,+(r0,+(r0,+(r0,+(r0,p0)))))))))",
                too_deep(45),
            ),
            (
                "S r0 +(r0,+(r0,+(r0,+(r0,+(r0,+(r0,+(r0,+(r0,-",
                too_deep(45),
            ),
            (
                "S r0 +(r0,+(r0,+(r0,+(r0,+(r0,+(r0,+(r0,+(r0,+x",
                too_deep(45),
            ),
            (
                "S r0 +(r0,+(r0,+(r0,+(r0,+(r0,+(r0,+(r0,+(r0,(",
                malformed(45),
            ),
            (
                "S r64 +(r0,+(r0,+(r0,+(r0,+(r0,+(r0,+(r0,+(r0,+(r0,p0)",
                out_of_range(2),
            ),
            (
                "D +(r0,+(r0,+(r0,+(r0,+(r0,+(r0,+(r0,+(r0,+(r0,p0)",
                too_deep(42),
            ),
            ("K +(+(+(+(+(+(+(+(+(", too_deep(18)),
            ("u0 + -(-(-(-(-(-(-(-(-(", too_deep(21)),
            (
                "u0 + r0 -(r0,-(r0,-(r0,-(r0,-(r0,-(r0,-(r0,-(r0,+(",
                too_deep(48),
            ),
            (
                "u0 + r0 -(r0,-(r0,-(r0,-(r0,-(r0,-(r0,-(r0,-(r0,p0))))))))",
                undeclared(8),
            ),
            (
                "S +(u0,r0) +(r0,+(r0,+(r0,+(r0,+(r0,+(r0,+(r0,+(r0,p0))))))))",
                undeclared(2),
            ),
        ],
    )
}

// Eight privileges in one another are read back as the number that the last of them has.
#[test]
fn eight_deep(rt: HostRuntime) -> Result<(), Fail> {
    let names = eight(rt.alloc())?;
    says(
        &names,
        &[
            (
                "S r0 +(r10,+(r10,+(r10,+(r10,+(r10,+(r10,+(r10,+(r10,p100))))))))",
                Call::Seat(pair(64, 263)),
            ),
            (
                "D +(r10,+(r10,+(r10,+(r10,+(r10,+(r10,+(r10,+(r10,p100))))))))",
                Call::Declare(adding(74, 262)),
            ),
            (
                "u1 - r10 +(r10,+(r10,+(r10,+(r10,+(r10,+(r10,+(r10,+(r10,p100))))))))",
                wish(1, removing(74, 263)),
            ),
            (
                "u10 + +(r10,+(r10,+(r10,+(r10,+(r10,+(r10,+(r10,+(r10,p100)))))))) +(r10,+(r10,+(r10,+(r10,+(r10,+(r10,+(r10,+(r10,p100))))))))",
                wish(10, adding(263, 263)),
            ),
        ],
    )?;
    refuses(
        &names,
        &[
            (
                "S r0 +(r10,+(r10,+(r10,+(r10,+(r10,+(r10,+(r10,+(r10,+(r10,p100)))))))))",
                too_deep(53),
            ),
            (
                "D +(r10,+(r10,+(r10,+(r10,+(r10,+(r10,+(r10,+(r10,+(r10,p100)))))))))",
                too_deep(50),
            ),
        ],
    )
}

// Seven in one another, in 60 bytes and in 59.
const LONG: &str = "+(p100,+(p100,+(p100,+(p100,+(p100,+(p100,+(p100,p100)))))))";

const SHORT: &str = "+(p10,+(p100,+(p100,+(p100,+(p100,+(p100,+(p100,p100)))))))";

// A line of a seat whose first node is a bracket of these two: the second begins at 7 and their length.
// None of them is declared, so a line with nothing else to refuse is refused with 17.
fn seats(
    alloc: Global,
    left: &str,
    right: &str,
    rows: &[(&str, usize, TextFault)],
) -> Result<(), Fail> {
    let names = Privileges::new(alloc)?;
    for (end, length, fault) in rows {
        let line = format!(in alloc; "S +({left},{right}) {end}")?;
        claim(line.len() == *length, "a line of this length")?;
        claim(
            read_call(&names, line.as_bytes()).err() == Some(*fault),
            end,
        )?;
    }
    Ok(())
}

// Only 128 bytes of a line are read.
#[test]
fn long_lines(rt: HostRuntime) -> Result<(), Fail> {
    seats(
        rt.alloc(),
        SHORT,
        SHORT,
        &[
            ("r6", 127, undeclared(2)),
            ("r63", 128, undeclared(2)),
            ("r64", 128, out_of_range(125)),
            ("r630", 129, malformed(128)),
            ("r63x", 129, malformed(128)),
            ("r64x", 129, out_of_range(125)),
            ("r640", 129, out_of_range(125)),
            ("r00", 128, malformed(127)),
            ("r6 ", 128, malformed(127)),
            ("r6xyz", 130, malformed(127)),
            ("r63yz", 130, malformed(128)),
        ],
    )
}

// A number, a letter and a bracket that the 128th byte cuts.
#[test]
fn cut_lines(rt: HostRuntime) -> Result<(), Fail> {
    seats(
        rt.alloc(),
        SHORT,
        LONG,
        &[
            ("r6", 128, undeclared(2)),
            ("r64", 129, malformed(128)),
            ("r6400000", 134, malformed(128)),
            ("rx", 128, malformed(127)),
        ],
    )?;
    seats(
        rt.alloc(),
        LONG,
        LONG,
        &[
            ("", 127, malformed(127)),
            ("x", 128, malformed(127)),
            ("r", 128, malformed(128)),
            ("r1", 129, malformed(128)),
            ("r64", 130, malformed(128)),
            ("+", 128, malformed(128)),
            ("+(", 129, malformed(128)),
        ],
    )
}

// A line that can only be a command is one that says the same as any line, if it is one at all.
#[test]
fn only_commands(rt: HostRuntime) -> Result<(), Fail> {
    let names = three(rt.alloc())?;
    match read_command(&names, b"u0 + r2 +(u2,r0)") {
        Ok(call) => claim(same(call, wish(0, adding(66, 256))), "a command is read")?,
        Err(_) => return Err(Fail::new("a command is refused")),
    }
    for (line, fault) in [
        ("", malformed(0)),
        ("D +(u2,r0)", malformed(0)),
        ("K p0 v0", malformed(0)),
        ("S r0 r1", malformed(0)),
        ("O", malformed(0)),
        ("T v7", malformed(0)),
        ("u1 + u2 r1 ", malformed(10)),
        ("u1 + u64 r1 ", out_of_range(5)),
        ("u1 + r2 +(u3,r0)", undeclared(8)),
        ("u0 + -(-(-(-(-(-(-(-(-(", too_deep(21)),
    ] {
        claim(
            read_command(&names, line.as_bytes()).err() == Some(fault),
            line,
        )?;
    }
    Ok(())
}

// The numbers that the refusals of a line are listed under, their layer and their places.
#[test]
fn refusals(rt: HostRuntime) {
    for (fault, number) in [
        (malformed(3), 15),
        (out_of_range(3), 16),
        (too_deep(3), 7),
        (undeclared(3), 17),
    ] {
        assert_eq!(rt; fault.number(), number);
        assert!(rt; fault.layer() == Layer::Text && fault.place() == Some(Place::Column(3)));
    }
}
