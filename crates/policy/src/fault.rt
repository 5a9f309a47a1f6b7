ghost use Rattle.std.specs.Prelude.{None};
ghost use Rattle.std.proofs.Common.{rules};
ghost use Rattle.policy.specs.Faults.{policy_number};
ghost use Rattle.refusals.specs.declared.layer.Layer.TheVariants.{Centre as InCentre};

use refusals::{Layer, Place, Refusal};
use std::fmt;

/// Why an edge is not entered into the policy.
#[derive(Clone, Copy, PartialEq, Eq, Debug)]
pub enum PolicyFault {
    /// The pair is no edge.
    NoEdge = 2,
    /// The edge is absent, and the policy has 512 edges.
    Full = 4,
}

impl Refusal for PolicyFault {
    ghost number = { policy_number };

    ghost layer = { λ _. InCentre };

    ghost place = { λ _. None };

    ghost listed = { Prim.search rules };

    fn number(&self) -> u8 {
        *self as u8
    }

    fn layer(&self) -> Layer {
        Layer::Centre
    }

    fn place(&self) -> Option<Place> {
        None
    }
}

/// What is refused, in words.
impl fmt::Display for PolicyFault {
    ghost use Rattle.std.specs.Prelude.{Some};
    ghost use Rattle.policy.specs.Texts.{policy_text};

    ghost output = { λ f. Some (policy_text f) };

    fn fmt<W: fmt::Write>(&self, f: &mut fmt::Formatter<W>) -> fmt::Result {
        match self {
            PolicyFault::NoEdge => f.write_str("the pair is no edge"),
            PolicyFault::Full => f.write_str("the policy has 512 edges"),
        }
    }
}
