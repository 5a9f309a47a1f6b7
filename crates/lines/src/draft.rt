ghost use Rattle.std.specs.Prelude.{IfOk, IfErr};
ghost use Rattle.lines.specs.Drafts.{Completes, Misses};

use crate::ends::{Ends, Named};
use crate::fault::TextFault;
use crate::signs::Sign;
use calls::Call;

// What a well-formed line says, before it is asked whether its privileges are declared.
#[derive(Clone, Copy)]
pub enum Draft {
    Declare { sign: Sign, ends: Ends },
    Keep { privilege: Named, vault: u16 },
    Seat { ends: Ends },
    Open,
    Command { user: u16, sign: Sign, ends: Ends },
    Deliver { vault: u16 },
}

impl Draft {
    // The call that it says; refused with 17 at the first node that is not declared.
    pub(crate) fn call(self) -> Result<Call, TextFault>
        ensures complete { IfOk result (λ c. Completes self c) }
        ensures undeclared { IfErr result (λ f. Misses self f) }
    {
        match self {
            Draft::Declare { sign, ends } => Ok(Call::Declare(sign.change(ends.edge()?))),
            Draft::Keep { privilege, vault } => Ok(Call::Keep {
                vault: usize::from(vault),
                privilege: privilege.declared()?,
            }),
            Draft::Seat { ends } => Ok(Call::Seat(ends.edge()?)),
            Draft::Open => Ok(Call::Open),
            Draft::Command { user, sign, ends } => Ok(Call::Command {
                user,
                change: sign.change(ends.edge()?),
            }),
            Draft::Deliver { vault } => Ok(Call::Deliver {
                vault: usize::from(vault),
            }),
        }
    }
}
