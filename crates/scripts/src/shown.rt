ghost use Rattle.std.specs.Prelude.{◌≡◌};
ghost use Rattle.scripts.specs.Answering.{place_of};

use crate::fault::ScriptFault;
use refusals::Refusal;
use rules::CentreFault;
use std::fmt;

/// The answer to a line, as it is printed: 0, or the number of the refusal, then its place where it has one.
#[derive(Clone, Copy)]
pub struct Shown(pub Result<(), ScriptFault>);

// Where a refusal is to be found: a vault that is short of room, or a column.
fn place(fault: ScriptFault) -> Option<usize>
    ensures { result ≡ place_of fault }
{
    match fault {
        ScriptFault::Text(fault) => Some(fault.column()),
        ScriptFault::Centre(CentreFault::StoreRoom { vault }) => Some(vault),
        ScriptFault::Centre(CentreFault::LinkRoom { vault }) => Some(vault),
        ScriptFault::Centre(_) => None,
    }
}

impl fmt::Display for Shown {
    ghost use Rattle.std.specs.Prelude.{Some};
    ghost use Rattle.scripts.specs.Answering.{answer_text};

    ghost output = { λ x. Some (answer_text x.0) };

    fn fmt<W: fmt::Write>(&self, f: &mut fmt::Formatter<W>) -> fmt::Result {
        match self.0 {
            Ok(()) => f.write_str("0"),
            Err(fault) => {
                let number = fault.number();
                match place(fault) {
                    Some(place) => write!(f, "{number} {place}"),
                    None => write!(f, "{number}"),
                }
            }
        }
    }
}
