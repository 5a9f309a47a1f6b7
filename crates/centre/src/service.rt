ghost use Rattle.std.specs.Prelude.{◌≡◌, false, map};
ghost use Rattle.calls.specs.declared.call.Call.TheVariants.{Command, Apply, Deliver};
ghost use Rattle.rules.specs.Installation.{service};
ghost use Rattle.rules.specs.Questions.{belongs};
ghost use Rattle.rules.specs.Runs.{Run};
ghost use Rattle.centre.specs.Holding.{installation};
ghost use Rattle.centre.specs.Offices.{held};
ghost use Rattle.centre.specs.Sayings.{said};
ghost use Rattle.centre.specs.Promises.{Kept, Does, as_call, as_asked, FirstRefusal};

use crate::office::Office;
use calls::Call;
use edges::Change;
use precedence::Precedence;
use rules::{CentreFault, CommandRecord, WorkFault};
use std::marker::Model;
use vaults::Bank;

/// The third stage: users' commands, one by one or as a work list. It means all that the centre holds,
/// and calls alone have brought that about.
#[derive(Drop)]
pub struct Service<B: Bank, R: Precedence> {
    pub(crate) office: Office<B, R>,
}

impl<B: Bank, R: Precedence> Model for Service<B, R> {
    ghost use Rattle.rules.specs.Installation.{service};
    ghost use Rattle.centre.specs.Holding.{Held};
    ghost use Rattle.centre.specs.Offices.{held};
    ghost use Rattle.centre.specs.Promises.{Brought};

    ghost Value = { Held R };

    ghost view = { λ s. held s.office };

    ghost invariant = { λ s. Brought R.Precedence.over service (held s.office) };
}

// The first record of a work list that was refused.
fn first_refusal(list: &[CommandRecord]) -> Result<(), WorkFault>
    ensures { FirstRefusal list.now result }
{
    for place in 0..list.len() {
        if let Err(fault) = list[place].answer {
            return Err(WorkFault::Command {
                record: place,
                fault,
            });
        }
    }
    Ok(())
}

impl<B: Bank, R: Precedence> Service<B, R> {
    /// What the centre can be asked; a question alters nothing.
    pub fn office(&self) -> &Office<B, R>
        ensures { held result.now ≡ self.now }
    {
        &self.office
    }

    /// A user's wish to add or to remove an edge.
    pub fn command(&mut self, user: u16, change: Change) -> Result<(), CentreFault>
        ensures { Does R.over service self.old (Command user change) (said result) self.new }
    {
        self.office.command(user, change)
    }

    /// Carries out the commands of a work list, one after another, and writes each answer into its
    /// record. A refusal stands in its record, and the list goes on; the first one is told in the end.
    pub fn work(&mut self, list: &mut [CommandRecord]) -> Result<(), WorkFault>
        ensures asked { map as_asked list.new ≡ map as_asked list.old }
        ensures refused { FirstRefusal list.new result }
        ensures run { Run (R.over self.old.rule) (installation service self.old) (map as_call list.new) (installation service self.new) }
        ensures rule { self.new.rule ≡ self.old.rule }
    {
        for record in list.iter_mut() {
            record.answer = self.command(record.user, record.change);
        }
        first_refusal(list)
    }

    /// Performs the first message that waits at a vault on its table, and leaves it waiting.
    pub fn apply(&mut self, vault: usize) -> Result<(), CentreFault>
        ensures { Does R.over service self.old (Apply vault) (said result) self.new }
    {
        self.office.apply(vault)
    }

    /// Performs the first message that waits at a vault on its table, and strikes it.
    pub fn deliver(&mut self, vault: usize) -> Result<(), CentreFault>
        ensures { Does R.over service self.old (Deliver vault) (said result) self.new }
    {
        self.office.deliver(vault)
    }

    // The answer to a call that this stage has not.
    #[tactic(auto, using(crate::proofs::Stages::wrong_stage))]
    pub(crate) fn refuse(&self, call: Call) -> Result<u16, CentreFault>
        requires { belongs call service ≡ false }
        ensures { Does R.over service self.now call result self.now }
    {
        let _ = &self.office;
        Err(CentreFault::WrongStage)
    }

    /// What holds of every installation at this stage: the function stands for the theorem.
    pub fn laws(&self)
        ensures { Kept (R.over self.now.rule) (installation service self.now) }
    {
        let _ = &self.office;
    }
}
