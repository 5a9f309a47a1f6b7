use calls::Call;
use edges::Change;
use lines::TextFault;
use lines::reader::read_call;
use lines::writer::write_command;
use privileges::Privileges;
use refusals::Refusal;
use std::io;

// Lines in the order in which they are read; the first two declare 256 and 257.
const LINES: [&str; 14] = [
    "D +(u2,r0)",
    "D +(r2,+(u2,r0))",
    "K p0 v0",
    "S r0 r1",
    "S r2 +(u2,r0)",
    "O",
    "u1 + u2 r0",
    "u0 + r2 +(r2,+(u2,r0))",
    "T v1",
    "u1 + u64 r0",
    "u01 + u2 r0",
    "u1 - r2 +(u2,r1)",
    "u1 + u2",
    "T v8",
];

// A mark under a column, and the number of the refusal.
fn show_refusal(rt: &HostRuntime, fault: TextFault) -> io::Result<()> {
    print!(rt; "    ")?;
    for _ in 0..fault.column() {
        print!(rt; " ")?;
    }
    let number = fault.number();
    println!(rt; "^ refused with {number}")
}

// A command, written back from what was read.
fn show_written(
    rt: &HostRuntime,
    privileges: &Privileges,
    user: u16,
    change: Change,
) -> io::Result<()> {
    let mut line = [0u8; 128];
    match write_command(privileges, user, change, &mut line) {
        Ok(length) => {
            let bytes = line.get(..length).unwrap_or_default();
            let text = str::from_utf8(bytes).unwrap_or_default();
            println!(rt; "    user {user}: {change}, written {text}")
        }
        Err(fault) => {
            let number = fault.number();
            println!(rt; "    user {user}: {change}, not written: {number}")
        }
    }
}

fn show_call(rt: &HostRuntime, privileges: &mut Privileges, call: Call) -> io::Result<()> {
    match call {
        Call::Declare(change) => match privileges.declare(change) {
            Ok(number) => println!(rt; "    declared {change} as {number}"),
            Err(fault) => {
                let number = fault.number();
                println!(rt; "    not declared: {number}")
            }
        },
        Call::Keep { vault, privilege } => println!(rt; "    vault {vault} keeps {privilege}"),
        Call::Seat(edge) => println!(rt; "    seat {edge}"),
        Call::Open => println!(rt; "    open"),
        Call::Command { user, change } => show_written(rt, privileges, user, change),
        Call::Deliver { vault } => println!(rt; "    deliver at vault {vault}"),
        Call::EndNaming | Call::Apply { .. } => Ok(()),
    }
}

/// Lines are read: the calls that they say, refusals with a mark under their column, and commands written
/// back.
pub fn show(rt: &HostRuntime) -> anyhow::Result<()> {
    println!(rt; "Lines of a script, read.")?;
    let mut privileges = Privileges::new(rt.alloc())?;
    for line in LINES {
        println!(rt; "    {line}")?;
        match read_call(&privileges, line.as_bytes()) {
            Ok(call) => show_call(rt, &mut privileges, call)?,
            Err(fault) => show_refusal(rt, fault)?,
        }
    }
    Ok(())
}
