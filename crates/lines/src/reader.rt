ghost use Rattle.std.specs.Prelude.{◌≡◌, ◌≤◌, take, MatchResult, IfOk, IfErr, []};
ghost use Rattle.lines.specs.Forms.{form_of, command_form, Refused, Said};
ghost use Rattle.lines.specs.Drafts.{DraftRead, Completed};
ghost use Rattle.lines.specs.Cursors.{Fails};

use crate::cursor::{Cursor, Read};
use crate::draft::Draft;
use crate::fault::TextFault;
use calls::Call;
use privileges::Privileges;

impl<'a> Cursor<'a> {
    // Reads a line of the form that its first byte calls for.
    fn draft(self, privileges: &Privileges) -> Result<Read<'a, Draft>, TextFault>
        ensures read { IfOk result
            (λ x. DraftRead privileges.now (form_of self.entry.text.now) self.entry x.rest x.value) }
        ensures refused { IfErr result (λ f. Fails (form_of self.entry.text.now) self.entry f) }
    {
        match self.text {
            [b'D', ..] => self.declare(privileges),
            [b'K', ..] => self.keep(privileges),
            [b'S', ..] => self.seat(privileges),
            [b'O', ..] => self.open(),
            [b'T', ..] => self.deliver(),
            _ => self.command(privileges),
        }
    }
}

// The call that a draft says, where the line ends behind it and its privileges are declared.
fn complete(draft: Read<Draft>, line: &[u8]) -> Result<Call, TextFault>
    ensures { Completed line.now draft.entry.rest draft.entry.value result }
{
    draft.rest.end(line)?;
    draft.value.call()
}

/// Reads a line to the call that it says: a command, or a line that begins with the letter of a
/// call. The first refusal of its bytes comes first, then the leftmost node that is not declared.
#[tactic(auto, using(crate::proofs::Wholes::call_failed, crate::proofs::Wholes::call_answered))]
pub fn read_call(privileges: &Privileges, line: &[u8]) -> Result<Call, TextFault>
    ensures { MatchResult result
        (λ c. Said privileges.now (form_of line.now) line.now c)
        (λ f. Refused privileges.now (form_of line.now) line.now f) }
{
    let draft = Cursor::new(line).draft(privileges)?;
    complete(draft, line)
}

/// Reads a line that can only be a command.
#[tactic(auto, using(crate::proofs::Wholes::command_failed, crate::proofs::Wholes::command_answered))]
pub fn read_command(privileges: &Privileges, line: &[u8]) -> Result<Call, TextFault>
    ensures { MatchResult result
        (λ c. Said privileges.now command_form line.now c)
        (λ f. Refused privileges.now command_form line.now f) }
{
    let draft = Cursor::new(line).command(privileges)?;
    complete(draft, line)
}
