ghost use Rattle.std.specs.Prelude.{◌≡◌};
ghost use Rattle.std.proofs.Common.{rules};
ghost use Rattle.scripts.specs.Faults.{script_number, script_layer, script_place};
ghost use Rattle.scripts.specs.declared.fault.ScriptFault.TheVariants.{Text as OfText, Centre as OfCentre};

use lines::TextFault;
use refusals::{Layer, Place, Refusal};
use rules::CentreFault;
use std::fmt;

/// Why a line of a script is refused: as a text, or as the call that it says.
#[derive(Clone, Copy, PartialEq, Eq, Debug)]
pub enum ScriptFault {
    Text(TextFault),
    Centre(CentreFault),
}

impl Refusal for ScriptFault {
    ghost number = { script_number };

    ghost layer = { script_layer };

    ghost place = { script_place };

    ghost listed = { Prim.search rules };

    fn number(&self) -> u8 {
        match self {
            ScriptFault::Text(fault) => fault.number(),
            ScriptFault::Centre(fault) => fault.number(),
        }
    }

    fn layer(&self) -> Layer {
        match self {
            ScriptFault::Text(fault) => fault.layer(),
            ScriptFault::Centre(fault) => fault.layer(),
        }
    }

    fn place(&self) -> Option<Place> {
        match self {
            ScriptFault::Text(fault) => fault.place(),
            ScriptFault::Centre(fault) => fault.place(),
        }
    }
}

// These two are written out, since what a derive would write has no contract.
impl From<TextFault> for ScriptFault {
    ghost from_gives = { λ f g. g ≡ OfText f };

    fn from(fault: TextFault) -> ScriptFault {
        ScriptFault::Text(fault)
    }
}

impl From<CentreFault> for ScriptFault {
    ghost from_gives = { λ f g. g ≡ OfCentre f };

    fn from(fault: CentreFault) -> ScriptFault {
        ScriptFault::Centre(fault)
    }
}

/// What is refused, in words.
impl fmt::Display for ScriptFault {
    ghost use Rattle.std.specs.Prelude.{Some};
    ghost use Rattle.scripts.specs.Texts.{script_text};

    ghost output = { λ f. Some (script_text f) };

    fn fmt<W: fmt::Write>(&self, f: &mut fmt::Formatter<W>) -> fmt::Result {
        match self {
            ScriptFault::Text(fault) => write!(f, "{fault}"),
            ScriptFault::Centre(fault) => write!(f, "{fault}"),
        }
    }
}
