ghost use Rattle.std.specs.Prelude.{◌≡◌, None, Some};
ghost use Rattle.std.proofs.Common.{rules};
ghost use Rattle.lines.specs.Faults.{text_number, column_of, write_number};
ghost use Rattle.refusals.specs.declared.layer.Layer.TheVariants.{Text as InText};
ghost use Rattle.refusals.specs.declared.place.Place.TheVariants.{Column as AtColumn};

use refusals::{Layer, Place, Refusal};
use std::fmt;

/// Why a line is refused, with the column where it is; the first byte has column 0. A line that is
/// refused with any but the first is well formed so far.
#[derive(Clone, Copy, PartialEq, Eq, Debug)]
pub enum TextFault {
    /// A byte with which no line can go on, or an end.
    Malformed { column: usize },
    /// A number out of range.
    OutOfRange { column: usize },
    /// A sign that is nested too deep.
    TooDeep { column: usize },
    /// A privilege that is not declared.
    Undeclared { column: usize },
}

impl TextFault {
    /// The column where the line is refused.
    pub fn column(&self) -> usize
        ensures { result ≡ column_of self.now }
    {
        match self {
            TextFault::Malformed { column } => *column,
            TextFault::OutOfRange { column } => *column,
            TextFault::TooDeep { column } => *column,
            TextFault::Undeclared { column } => *column,
        }
    }
}

impl Refusal for TextFault {
    ghost number = { text_number };

    ghost layer = { λ _. InText };

    ghost place = { λ f. Some (AtColumn (column_of f)) };

    ghost listed = { Prim.search rules };

    fn number(&self) -> u8 {
        match self {
            TextFault::Malformed { .. } => 15,
            TextFault::OutOfRange { .. } => 16,
            TextFault::TooDeep { .. } => 7,
            TextFault::Undeclared { .. } => 17,
        }
    }

    fn layer(&self) -> Layer {
        Layer::Text
    }

    fn place(&self) -> Option<Place> {
        Some(Place::Column(self.column()))
    }
}

/// Why a command is not written.
#[derive(Clone, Copy, PartialEq, Eq, Debug)]
pub enum WriteFault {
    /// Its user is none.
    NoUser = 1,
    /// Its edge is none.
    NoEdge = 2,
    /// The buffer is too short.
    NoRoom = 21,
}

impl Refusal for WriteFault {
    ghost number = { write_number };

    ghost layer = { λ _. InText };

    ghost place = { λ _. None };

    ghost listed = { Prim.search rules };

    fn number(&self) -> u8 {
        *self as u8
    }

    fn layer(&self) -> Layer {
        Layer::Text
    }

    fn place(&self) -> Option<Place> {
        None
    }
}

/// What is refused, in words.
impl fmt::Display for TextFault {
    ghost use Rattle.std.specs.Prelude.{Some};
    ghost use Rattle.lines.specs.Texts.{text_text};

    ghost output = { λ f. Some (text_text f) };

    fn fmt<W: fmt::Write>(&self, f: &mut fmt::Formatter<W>) -> fmt::Result {
        match self {
            TextFault::Malformed { .. } => f.write_str("no line can go on like this"),
            TextFault::OutOfRange { .. } => f.write_str("the number is out of range"),
            TextFault::TooDeep { .. } => f.write_str("the privilege is nested deeper than 8"),
            TextFault::Undeclared { .. } => f.write_str("the bracket is not declared"),
        }
    }
}

/// What is refused, in words.
impl fmt::Display for WriteFault {
    ghost use Rattle.std.specs.Prelude.{Some};
    ghost use Rattle.lines.specs.Texts.{write_text};

    ghost output = { λ f. Some (write_text f) };

    fn fmt<W: fmt::Write>(&self, f: &mut fmt::Formatter<W>) -> fmt::Result {
        match self {
            WriteFault::NoUser => f.write_str("the user is not below 64"),
            WriteFault::NoEdge => f.write_str(
                "the pair is no edge, or an administrative privilege in it is not declared",
            ),
            WriteFault::NoRoom => f.write_str("the buffer is too short"),
        }
    }
}
