ghost use Rattle.std.specs.Prelude.{◌≡◌, ℕ, ◌≤◌, Option};
ghost use Rattle.refusals.specs.declared.layer.Layer.{Layer};
ghost use Rattle.refusals.specs.declared.place.Place.{Place};
ghost use Rattle.refusals.specs.Highest.{highest};

use crate::layer::Layer;
use crate::place::Place;

/// What every fault tells of itself: the number that it is listed under, the layer that refuses, and
/// where. Each plain enum has its own few lines for this, since no bound says that a type has
/// discriminants.
pub trait Refusal {
    ghost number: { Self → ℕ };

    ghost layer: { Self → Layer };

    ghost place: { Self → Option Place };

    /// Its number. A method and no From: a bare u8 does not say that it is a refusal's number.
    fn number(&self) -> u8
        ensures { result ≡ number self.now };

    /// The layer that refuses.
    fn layer(&self) -> Layer
        ensures { result ≡ layer self.now };

    /// What it is about, where that is one among several.
    fn place(&self) -> Option<Place>
        ensures { result ≡ place self.now };

    // A host in C is answered 100 and the number, so there are 99 numbers at most.
    ghost listed: { (f : Self) → (1 ≤ number f) × (number f ≤ highest) };
}
