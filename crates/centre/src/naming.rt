ghost use Rattle.std.specs.Prelude.{◌≡◌, false, Ok};
ghost use Rattle.calls.specs.declared.call.Call.TheVariants.{Declare, Keep, EndNaming};
ghost use Rattle.rules.specs.Installation.{naming, seating};
ghost use Rattle.rules.specs.Questions.{belongs};
ghost use Rattle.rules.specs.Outcomes.{Performs};
ghost use Rattle.centre.specs.Holding.{installation};
ghost use Rattle.centre.specs.Offices.{held};
ghost use Rattle.centre.specs.Sayings.{said};
ghost use Rattle.centre.specs.Promises.{Kept, Does};

use crate::office::Office;
use crate::seating::Seating;
use calls::Call;
use edges::Change;
use precedence::Precedence;
use rules::CentreFault;
use std::marker::Model;
use vaults::Bank;

/// The first stage: privileges are declared, and vaults are told what they keep. It means all that the
/// centre holds, and calls alone have brought that about.
#[derive(Drop)]
pub struct Naming<B: Bank, R: Precedence> {
    pub(crate) office: Office<B, R>,
}

impl<B: Bank, R: Precedence> Model for Naming<B, R> {
    ghost use Rattle.rules.specs.Installation.{naming};
    ghost use Rattle.centre.specs.Holding.{Held};
    ghost use Rattle.centre.specs.Offices.{held};
    ghost use Rattle.centre.specs.Promises.{Brought};

    ghost Value = { Held R };

    ghost view = { λ s. held s.office };

    ghost invariant = { λ s. Brought R.Precedence.over naming (held s.office) };
}

impl<B: Bank, R: Precedence> Naming<B, R> {
    /// What the centre can be asked; a question alters nothing.
    pub fn office(&self) -> &Office<B, R>
        ensures { held result.now ≡ self.now }
    {
        &self.office
    }

    /// Names the administrative privilege that allows a change, and tells its number: that of old, if it
    /// was declared before.
    pub fn declare(&mut self, change: Change) -> Result<u16, CentreFault>
        ensures { Does R.over naming self.old (Declare change) result self.new }
    {
        self.office.declare(change)
    }

    /// Has a vault keep a user privilege.
    pub fn keep(&mut self, vault: usize, privilege: u16) -> Result<(), CentreFault>
        ensures { Does R.over naming self.old (Keep vault privilege) (said result) self.new }
    {
        self.office.keep(vault, privilege)
    }

    /// Ends naming.
    #[tactic(auto, using(crate::proofs::Stages::end_performs))]
    pub fn end(self) -> Seating<B, R>
        ensures performs { Performs (R.over self.rule) (installation naming self) EndNaming (Ok 0) (installation seating result) }
        ensures rule { result.rule ≡ self.rule }
    {
        let Naming { office } = self;
        Seating { office }
    }

    // The answer to a call that this stage has not.
    #[tactic(auto, using(crate::proofs::Stages::wrong_stage))]
    pub(crate) fn refuse(&self, call: Call) -> Result<u16, CentreFault>
        requires { belongs call naming ≡ false }
        ensures { Does R.over naming self.now call result self.now }
    {
        let _ = &self.office;
        Err(CentreFault::WrongStage)
    }

    /// What holds of every installation at this stage: the function stands for the theorem.
    pub fn laws(&self)
        ensures { Kept (R.over self.now.rule) (installation naming self.now) }
    {
        let _ = &self.office;
    }
}
