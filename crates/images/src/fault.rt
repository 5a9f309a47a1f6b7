ghost use Rattle.std.specs.Prelude.{None};
ghost use Rattle.std.proofs.Common.{rules};
ghost use Rattle.images.specs.Faults.{image_number, write_number};
ghost use Rattle.refusals.specs.declared.layer.Layer.TheVariants.{Text as InText};

use refusals::{Layer, Place, Refusal};
use std::fmt;

/// Why bytes are not opened as an image.
#[derive(Clone, Copy, PartialEq, Eq, Debug)]
pub enum ImageFault {
    /// They are the image of no table.
    NoImage = 18,
}

impl Refusal for ImageFault {
    ghost number = { image_number };

    ghost layer = { λ _. InText };

    ghost place = { λ _. None };

    ghost listed = { Prim.search rules };

    fn number(&self) -> u8 {
        *self as u8
    }

    fn layer(&self) -> Layer {
        match self {
            ImageFault::NoImage => Layer::Text,
        }
    }

    fn place(&self) -> Option<Place> {
        None
    }
}

/// Why a table is not written as an image.
#[derive(Clone, Copy, PartialEq, Eq, Debug)]
pub enum WriteFault {
    /// The buffer is shorter than the longest image.
    NoRoom = 21,
}

impl Refusal for WriteFault {
    ghost number = { write_number };

    ghost layer = { λ _. InText };

    ghost place = { λ _. None };

    ghost listed = { Prim.search rules };

    fn number(&self) -> u8 {
        *self as u8
    }

    fn layer(&self) -> Layer {
        Layer::Text
    }

    fn place(&self) -> Option<Place> {
        None
    }
}

/// What is refused, in words.
impl fmt::Display for ImageFault {
    ghost use Rattle.std.specs.Prelude.{Some};
    ghost use Rattle.images.specs.Texts.{image_text};

    ghost output = { λ f. Some (image_text f) };

    fn fmt<W: fmt::Write>(&self, f: &mut fmt::Formatter<W>) -> fmt::Result {
        match self {
            ImageFault::NoImage => f.write_str("the bytes are the image of no table"),
        }
    }
}

/// What is refused, in words.
impl fmt::Display for WriteFault {
    ghost use Rattle.std.specs.Prelude.{Some};
    ghost use Rattle.images.specs.Texts.{write_text};

    ghost output = { λ f. Some (write_text f) };

    fn fmt<W: fmt::Write>(&self, f: &mut fmt::Formatter<W>) -> fmt::Result {
        match self {
            WriteFault::NoRoom => f.write_str("the buffer is too short"),
        }
    }
}
