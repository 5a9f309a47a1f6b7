ghost use Rattle.std.specs.Prelude.{◌≡◌, false, Ok};
ghost use Rattle.calls.specs.declared.call.Call.TheVariants.{Seat, Open, Apply, Deliver};
ghost use Rattle.rules.specs.Installation.{seating, service};
ghost use Rattle.rules.specs.Questions.{belongs};
ghost use Rattle.rules.specs.Outcomes.{Performs};
ghost use Rattle.centre.specs.Holding.{installation};
ghost use Rattle.centre.specs.Offices.{held};
ghost use Rattle.centre.specs.Sayings.{said};
ghost use Rattle.centre.specs.Promises.{Kept, Does};

use crate::office::Office;
use crate::service::Service;
use calls::Call;
use edges::Edge;
use precedence::Precedence;
use rules::CentreFault;
use std::marker::Model;
use vaults::Bank;

/// The second stage: edges are added without asking who wants them. It means all that the centre holds,
/// and calls alone have brought that about.
#[derive(Drop)]
pub struct Seating<B: Bank, R: Precedence> {
    pub(crate) office: Office<B, R>,
}

impl<B: Bank, R: Precedence> Model for Seating<B, R> {
    ghost use Rattle.rules.specs.Installation.{seating};
    ghost use Rattle.centre.specs.Holding.{Held};
    ghost use Rattle.centre.specs.Offices.{held};
    ghost use Rattle.centre.specs.Promises.{Brought};

    ghost Value = { Held R };

    ghost view = { λ s. held s.office };

    ghost invariant = { λ s. Brought R.Precedence.over seating (held s.office) };
}

impl<B: Bank, R: Precedence> Seating<B, R> {
    /// What the centre can be asked; a question alters nothing.
    pub fn office(&self) -> &Office<B, R>
        ensures { held result.now ≡ self.now }
    {
        &self.office
    }

    /// Adds an edge without asking who wants it.
    pub fn seat(&mut self, edge: Edge) -> Result<(), CentreFault>
        ensures { Does R.over seating self.old (Seat edge) (said result) self.new }
    {
        self.office.seat(edge)
    }

    /// Performs the first message that waits at a vault on its table, and leaves it waiting.
    pub fn apply(&mut self, vault: usize) -> Result<(), CentreFault>
        ensures { Does R.over seating self.old (Apply vault) (said result) self.new }
    {
        self.office.apply(vault)
    }

    /// Performs the first message that waits at a vault on its table, and strikes it.
    pub fn deliver(&mut self, vault: usize) -> Result<(), CentreFault>
        ensures { Does R.over seating self.old (Deliver vault) (said result) self.new }
    {
        self.office.deliver(vault)
    }

    /// Opens the service.
    #[tactic(auto, using(crate::proofs::Stages::open_performs))]
    pub fn open(self) -> Service<B, R>
        ensures performs { Performs (R.over self.rule) (installation seating self) Open (Ok 0) (installation service result) }
        ensures rule { result.rule ≡ self.rule }
    {
        let Seating { office } = self;
        Service { office }
    }

    // The answer to a call that this stage has not.
    #[tactic(auto, using(crate::proofs::Stages::wrong_stage))]
    pub(crate) fn refuse(&self, call: Call) -> Result<u16, CentreFault>
        requires { belongs call seating ≡ false }
        ensures { Does R.over seating self.now call result self.now }
    {
        let _ = &self.office;
        Err(CentreFault::WrongStage)
    }

    /// What holds of every installation at this stage: the function stands for the theorem.
    pub fn laws(&self)
        ensures { Kept (R.over self.now.rule) (installation seating self.now) }
    {
        let _ = &self.office;
    }
}
