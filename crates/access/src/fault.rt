ghost use Rattle.std.specs.Prelude.{◌≡◌, None};
ghost use Rattle.std.proofs.Common.{rules};
ghost use Rattle.access.specs.Faults.{access_number, access_layer};
ghost use Rattle.access.specs.declared.fault.AccessFault.TheVariants.{Image as OfImage, Session as OfSession};

use images::ImageFault;
use refusals::{Layer, Place, Refusal};
use sessions::SessionFault;
use std::fmt;

/// Why a question about an image is refused: by the image or by the session over it.
#[derive(Clone, Copy, PartialEq, Eq, Debug)]
pub enum AccessFault {
    Image(ImageFault),
    Session(SessionFault),
}

impl Refusal for AccessFault {
    ghost number = { access_number };

    ghost layer = { access_layer };

    ghost place = { λ _. None };

    ghost listed = { Prim.search rules };

    fn number(&self) -> u8 {
        match self {
            AccessFault::Image(fault) => fault.number(),
            AccessFault::Session(fault) => fault.number(),
        }
    }

    fn layer(&self) -> Layer {
        match self {
            AccessFault::Image(fault) => fault.layer(),
            AccessFault::Session(fault) => fault.layer(),
        }
    }

    fn place(&self) -> Option<Place> {
        match self {
            AccessFault::Image(fault) => fault.place(),
            AccessFault::Session(fault) => fault.place(),
        }
    }
}

// These two are written out, since what a derive would write has no contract.
impl From<ImageFault> for AccessFault {
    ghost from_gives = { λ f g. g ≡ OfImage f };

    fn from(fault: ImageFault) -> AccessFault {
        AccessFault::Image(fault)
    }
}

impl From<SessionFault> for AccessFault {
    ghost from_gives = { λ f g. g ≡ OfSession f };

    fn from(fault: SessionFault) -> AccessFault {
        AccessFault::Session(fault)
    }
}

/// What is refused, in words.
impl fmt::Display for AccessFault {
    ghost use Rattle.std.specs.Prelude.{Some};
    ghost use Rattle.access.specs.Texts.{access_text};

    ghost output = { λ f. Some (access_text f) };

    fn fmt<W: fmt::Write>(&self, f: &mut fmt::Formatter<W>) -> fmt::Result {
        match self {
            AccessFault::Image(fault) => write!(f, "{fault}"),
            AccessFault::Session(fault) => write!(f, "{fault}"),
        }
    }
}
