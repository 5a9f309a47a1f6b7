ghost use Rattle.std.specs.Prelude.{None};
ghost use Rattle.std.proofs.Common.{rules};
ghost use Rattle.sessions.specs.Faults.{session_number};
ghost use Rattle.refusals.specs.declared.layer.Layer.TheVariants.{Session as InSession};

use refusals::{Layer, Place, Refusal};
use std::fmt;

/// Why a session refuses.
#[derive(Clone, Copy, PartialEq, Eq, Debug)]
pub enum SessionFault {
    /// There is no such user.
    NoUser = 1,
    /// It is no user privilege.
    NoPrivilege = 10,
    /// It is no role, or none that the user reaches.
    NoRole = 14,
}

impl Refusal for SessionFault {
    ghost number = { session_number };

    ghost layer = { λ _. InSession };

    ghost place = { λ _. None };

    ghost listed = { Prim.search rules };

    fn number(&self) -> u8 {
        *self as u8
    }

    fn layer(&self) -> Layer {
        Layer::Session
    }

    fn place(&self) -> Option<Place> {
        None
    }
}

/// What is refused, in words.
impl fmt::Display for SessionFault {
    ghost use Rattle.std.specs.Prelude.{Some};
    ghost use Rattle.sessions.specs.Texts.{session_text};

    ghost output = { λ f. Some (session_text f) };

    fn fmt<W: fmt::Write>(&self, f: &mut fmt::Formatter<W>) -> fmt::Result {
        match self {
            SessionFault::NoUser => f.write_str("the user is not below 64"),
            SessionFault::NoPrivilege => f.write_str("it is no user privilege"),
            SessionFault::NoRole => f.write_str("it is no role, or none that the user reaches"),
        }
    }
}
