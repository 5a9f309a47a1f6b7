ghost use Rattle.std.specs.Prelude.{◌≡◌, ℕ, List, Ok, take};
ghost use Rattle.calls.specs.declared.call.Call.TheVariants.{EndNaming};
ghost use Rattle.centre.specs.Installed.{state, rule_of, Gives};
ghost use Rattle.centre.specs.Promises.{Kept};
ghost use Rattle.scripts.specs.Answering.{line_answer, Passed, Carried, Answered, Heard};

use crate::fault::ScriptFault;
use calls::Call;
use centre::running::give;
use centre::{Installation, Service};
use lines::reader::read_call;
use precedence::Precedence;
use rules::CentreFault;
use vaults::Bank;

// An answer without its number, which no script shows.
fn without_number(answer: Result<u16, CentreFault>) -> Result<(), ScriptFault>
    ensures { result ≡ line_answer answer }
{
    answer?;
    Ok(())
}

// No line says the end of naming: the first seat or opening brings it.
fn past_naming<B: Bank, R: Precedence>(at: Installation<B, R>) -> Installation<B, R>
    ensures { Passed R.over at result }
{
    match at {
        Installation::Naming(naming) => Installation::Seating(naming.end()),
        other => other,
    }
}

// Gives the call that a line says.
fn carry<B: Bank, R: Precedence>(
    at: Installation<B, R>,
    call: Call,
) -> (Installation<B, R>, Result<u16, CentreFault>)
    ensures carried { Carried R.over at call result.1 result.0 }
    ensures laws { Kept (R.over (rule_of result.0)) (state result.0) }
{
    match call {
        Call::Seat(_) | Call::Open => give(past_naming(at), call),
        _ => give(at, call),
    }
}

/// Answers one line of a script, read against what is declared. A line that cannot be read alters
/// nothing. The first 129 bytes of a line are answered as the line is.
pub fn answer_line<B: Bank, R: Precedence>(
    at: Installation<B, R>,
    line: &[u8],
) -> (Installation<B, R>, Result<(), ScriptFault>)
    ensures answered { Answered R.over at line.now result.1 result.0 }
    ensures front { (s : List ℕ) → take 129 s ≡ line.now → Answered R.over at s result.1 result.0 }
    ensures laws { Kept (R.over (rule_of result.0)) (state result.0) }
{
    match read_call(at.office().declared(), line) {
        Ok(call) => {
            let (next, answer) = carry(at, call);
            (next, without_number(answer))
        }
        Err(fault) => {
            at.laws();
            (at, Err(ScriptFault::Text(fault)))
        }
    }
}

/// Answers one line of a script to an installation in service, which stays with its holder.
pub fn hear_line<B: Bank, R: Precedence>(
    service: &mut Service<B, R>,
    line: &[u8],
) -> Result<(), ScriptFault>
    ensures heard { Heard R.over service.old line.now result service.new }
    ensures front { (s : List ℕ) → take 129 s ≡ line.now → Heard R.over service.old s result service.new }
{
    match read_call(service.office().declared(), line) {
        Ok(call) => without_number(service.hear(call)),
        Err(fault) => Err(ScriptFault::Text(fault)),
    }
}
