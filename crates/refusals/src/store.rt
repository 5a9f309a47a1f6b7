ghost use Rattle.std.specs.Prelude.{None};
ghost use Rattle.std.proofs.Common.{rules};
ghost use Rattle.refusals.specs.Numbers.{store_number};
ghost use Rattle.refusals.specs.declared.layer.Layer.TheVariants.{Store as InStore};

use crate::layer::Layer;
use crate::place::Place;
use crate::refusal::Refusal;
use std::fmt;

/// Why a store refuses an edge.
/// It is not one type with a link's fault: the type tells which layer refuses.
#[derive(Clone, Copy, PartialEq, Eq, Debug)]
pub enum StoreFault {
    /// The pair is no vault edge.
    NoVaultEdge = 2,
    /// The edge is absent and the set at its limit.
    Full = 12,
}

impl Refusal for StoreFault {
    ghost number = { store_number };

    ghost layer = { λ _. InStore };

    ghost place = { λ _. None };

    ghost listed = { Prim.search rules };

    fn number(&self) -> u8 {
        *self as u8
    }

    fn layer(&self) -> Layer {
        Layer::Store
    }

    fn place(&self) -> Option<Place> {
        None
    }
}

/// What is refused, in words.
impl fmt::Display for StoreFault {
    ghost use Rattle.std.specs.Prelude.{Some};
    ghost use Rattle.refusals.specs.Texts.{store_text};

    ghost output = { λ f. Some (store_text f) };

    fn fmt<W: fmt::Write>(&self, f: &mut fmt::Formatter<W>) -> fmt::Result {
        match self {
            StoreFault::NoVaultEdge => f.write_str("the pair is no vault edge"),
            StoreFault::Full => f.write_str("the edge is absent and the set at its limit"),
        }
    }
}
