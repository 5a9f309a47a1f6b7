ghost use Rattle.std.specs.Prelude.{None};
ghost use Rattle.std.proofs.Common.{rules};
ghost use Rattle.privileges.specs.Faults.{declare_number};
ghost use Rattle.refusals.specs.declared.layer.Layer.TheVariants.{Centre as InCentre};

use refusals::{Layer, Place, Refusal};
use std::fmt;

/// Why a privilege is not declared.
#[derive(Clone, Copy, PartialEq, Eq, Debug)]
pub enum DeclareFault {
    /// The change is about no edge, or about an administrative privilege that is not declared.
    NoEdge = 2,
    /// The privilege would be nested deeper than 8.
    TooDeep = 7,
    /// There are 128 declared privileges already.
    NamesFull = 8,
}

impl Refusal for DeclareFault {
    ghost number = { declare_number };

    ghost layer = { λ _. InCentre };

    ghost place = { λ _. None };

    ghost listed = { Prim.search rules };

    fn number(&self) -> u8 {
        *self as u8
    }

    fn layer(&self) -> Layer {
        Layer::Centre
    }

    fn place(&self) -> Option<Place> {
        None
    }
}

/// What is refused, in words.
impl fmt::Display for DeclareFault {
    ghost use Rattle.std.specs.Prelude.{Some};
    ghost use Rattle.privileges.specs.Texts.{declare_text};

    ghost output = { λ f. Some (declare_text f) };

    fn fmt<W: fmt::Write>(&self, f: &mut fmt::Formatter<W>) -> fmt::Result {
        match self {
            DeclareFault::NoEdge => f.write_str(
                "the pair is no edge, or an administrative privilege in it is not declared",
            ),
            DeclareFault::TooDeep => f.write_str("the privilege is nested deeper than 8"),
            DeclareFault::NamesFull => f.write_str("128 privileges are declared"),
        }
    }
}
