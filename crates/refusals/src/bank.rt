ghost use Rattle.std.specs.Prelude.{◌≡◌, None};
ghost use Rattle.std.proofs.Common.{rules};
ghost use Rattle.refusals.specs.Numbers.{bank_number, bank_layer};
ghost use Rattle.refusals.specs.declared.bank.BankFault.TheVariants.{Link as OfLink, Store as OfStore};

use crate::layer::Layer;
use crate::link::LinkFault;
use crate::place::Place;
use crate::refusal::Refusal;
use crate::store::StoreFault;
use std::fmt;

/// Why a bank refuses. It names no vault: a bank that stands within another counts from a vault of its own,
/// and who asks knows which one he asked.
#[derive(Clone, Copy, PartialEq, Eq, Debug)]
pub enum BankFault {
    /// There is no vault of that number.
    NoVault,
    /// Inspection turns the bank down.
    Unfit,
    /// The link of the vault refuses.
    Link(LinkFault),
    /// The store of the vault refuses.
    Store(StoreFault),
}

impl Refusal for BankFault {
    ghost number = { bank_number };

    ghost layer = { bank_layer };

    ghost place = { λ _. None };

    ghost listed = { Prim.search rules };

    fn number(&self) -> u8 {
        match self {
            BankFault::NoVault => 9,
            BankFault::Unfit => 19,
            BankFault::Link(fault) => fault.number(),
            BankFault::Store(fault) => fault.number(),
        }
    }

    fn layer(&self) -> Layer {
        match self {
            BankFault::NoVault => Layer::Centre,
            BankFault::Unfit => Layer::Centre,
            BankFault::Link(fault) => fault.layer(),
            BankFault::Store(fault) => fault.layer(),
        }
    }

    fn place(&self) -> Option<Place> {
        None
    }
}

// These two are written out, since what a derive would write has no contract.
impl From<LinkFault> for BankFault {
    ghost from_gives = { λ f g. g ≡ OfLink f };

    fn from(fault: LinkFault) -> BankFault {
        BankFault::Link(fault)
    }
}

impl From<StoreFault> for BankFault {
    ghost from_gives = { λ f g. g ≡ OfStore f };

    fn from(fault: StoreFault) -> BankFault {
        BankFault::Store(fault)
    }
}

/// What is refused, in words.
impl fmt::Display for BankFault {
    ghost use Rattle.std.specs.Prelude.{Some};
    ghost use Rattle.refusals.specs.Texts.{bank_text};

    ghost output = { λ f. Some (bank_text f) };

    fn fmt<W: fmt::Write>(&self, f: &mut fmt::Formatter<W>) -> fmt::Result {
        match self {
            BankFault::NoVault => f.write_str("there is no vault of that number"),
            BankFault::Unfit => f.write_str("inspection turns the bank down"),
            BankFault::Link(fault) => write!(f, "{fault}"),
            BankFault::Store(fault) => write!(f, "{fault}"),
        }
    }
}
