use crate::fault::ScriptFault;
use crate::front::Front;
use crate::line::{answer_line, hear_line};
use crate::shown::Shown;
use centre::Installation;
use precedence::Precedence;
use std::io::{self, Read, Write};
use vaults::Bank;

// Prints the answer to a line.
fn print<W: Write>(answer: Result<(), ScriptFault>, out: &mut W) -> io::Result<()> {
    let shown = Shown(answer);
    writeln!(out, "{shown}")
}

// Answers one line, and prints the answer.
fn answer<B: Bank + Drop, R: Precedence + Drop, W: Write>(
    at: Installation<B, R>,
    line: &[u8],
    out: &mut W,
) -> io::Result<Installation<B, R>> {
    let (next, answer) = answer_line(at, line);
    print(answer, out)?;
    Ok(next)
}

/// Answers every line of a script. The last one may lack its end, if it is not empty. Of each line only the
/// front is kept, so a script may be of any length. An installation in service is lent to the lines, as moving
/// it from line to line costs a tenth of the time.
pub fn serve<B: Bank + Drop, R: Precedence + Drop, I: Read, W: Write>(
    at: Installation<B, R>,
    input: &mut I,
    out: &mut W,
) -> io::Result<Installation<B, R>> {
    let mut at = at;
    let mut line = Front::new();
    let mut block = [0u8; 4096];
    for _ in 0..u64::MAX {
        let count = input.read(&mut block)?;
        if count == 0 {
            break;
        }
        for byte in block.get(..count).unwrap_or_default() {
            if *byte == b'\n' {
                if let Installation::Service(service) = &mut at {
                    print(hear_line(service, line.text()), out)?;
                } else {
                    at = answer(at, line.text(), out)?;
                }
                line.clear();
            } else {
                line.push(*byte);
            }
        }
        out.flush()?;
    }
    if !line.text().is_empty() {
        at = answer(at, line.text(), out)?;
    }
    Ok(at)
}
