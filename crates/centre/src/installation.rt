ghost use Rattle.std.specs.Prelude.{◌≡◌};
ghost use Rattle.centre.specs.Offices.{held};
ghost use Rattle.centre.specs.Promises.{Kept};

use crate::naming::Naming;
use crate::office::Office;
use crate::seating::Seating;
use crate::service::Service;
use precedence::Precedence;
use vaults::Bank;

/// The centre with its bank and its rule, at whatever stage it is.
#[derive(Drop)]
pub enum Installation<B: Bank, R: Precedence> {
    Naming(Naming<B, R>),
    Seating(Seating<B, R>),
    Service(Service<B, R>),
}

impl<B: Bank, R: Precedence> Installation<B, R> {
    ghost use Rattle.centre.specs.Installed.{state, rule_of, held_at};

    /// What the centre can be asked; a question alters nothing.
    pub fn office(&self) -> &Office<B, R>
        ensures { held result.now ≡ held_at self.now }
    {
        match self {
            Installation::Naming(naming) => naming.office(),
            Installation::Seating(seating) => seating.office(),
            Installation::Service(service) => service.office(),
        }
    }

    /// What holds of every installation: the function stands for the theorem.
    pub fn laws(&self)
        ensures { Kept (R.over (rule_of self.now)) (state self.now) }
    {
        match self {
            Installation::Naming(naming) => naming.laws(),
            Installation::Seating(seating) => seating.laws(),
            Installation::Service(service) => service.laws(),
        }
    }
}
