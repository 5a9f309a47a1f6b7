ghost use Rattle.std.specs.Prelude.{None};
ghost use Rattle.std.proofs.Common.{rules};
ghost use Rattle.refusals.specs.Numbers.{link_number};
ghost use Rattle.refusals.specs.declared.layer.Layer.TheVariants.{Link as InLink};

use crate::layer::Layer;
use crate::place::Place;
use crate::refusal::Refusal;
use std::fmt;

/// Why a link refuses a message.
/// It is not one type with a store's fault: the type tells which layer refuses.
#[derive(Clone, Copy, PartialEq, Eq, Debug)]
pub enum LinkFault {
    /// The message is not about a vault edge.
    NoVaultEdge = 2,
    /// As many messages wait as may.
    Full = 13,
}

impl Refusal for LinkFault {
    ghost number = { link_number };

    ghost layer = { λ _. InLink };

    ghost place = { λ _. None };

    ghost listed = { Prim.search rules };

    fn number(&self) -> u8 {
        *self as u8
    }

    fn layer(&self) -> Layer {
        Layer::Link
    }

    fn place(&self) -> Option<Place> {
        None
    }
}

/// What is refused, in words.
impl fmt::Display for LinkFault {
    ghost use Rattle.std.specs.Prelude.{Some};
    ghost use Rattle.refusals.specs.Texts.{link_text};

    ghost output = { λ f. Some (link_text f) };

    fn fmt<W: fmt::Write>(&self, f: &mut fmt::Formatter<W>) -> fmt::Result {
        match self {
            LinkFault::NoVaultEdge => f.write_str("the pair is no vault edge"),
            LinkFault::Full => f.write_str("as many messages wait as may"),
        }
    }
}
