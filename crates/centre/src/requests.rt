ghost use Rattle.std.specs.Prelude.{◌≡◌, false};
ghost use Rattle.calls.specs.declared.call.Call.TheVariants.{Declare, Keep, Seat, Command, Apply, Deliver};
ghost use Rattle.rules.specs.Installation.{Stage, naming, seating, service};
ghost use Rattle.rules.specs.Questions.{in_naming};
ghost use Rattle.rules.specs.Outcomes.{applied, delivered};
ghost use Rattle.rules.proofs.Invariant.{InvariantHolds};
ghost use Rattle.centre.specs.Holding.{installation};
ghost use Rattle.centre.specs.Offices.{held};
ghost use Rattle.centre.specs.Heads.{Visited};
ghost use Rattle.centre.specs.Sayings.{said, Ends};

use crate::office::Office;
use edges::{Change, Edge, Kind};
use policy::rights::is_authorised;
use precedence::Precedence;
use rules::CentreFault;
use vaults::Bank;

impl<B: Bank, R: Precedence> Office<B, R> {
    // Names the administrative privilege that allows a change.
    pub(crate) fn declare(&mut self, change: Change) -> Result<u16, CentreFault>
        ensures ends { Ends (R.over self.old.rule) (installation naming (held self.old)) (Declare change) result (installation naming (held self.new)) }
        ensures rule { self.new.rule ≡ self.old.rule }
    {
        Ok(self.names.declare(change)?)
    }

    // Has a vault keep a user privilege.
    pub(crate) fn keep(&mut self, vault: usize, privilege: u16) -> Result<(), CentreFault>
        ensures ends { Ends (R.over self.old.rule) (installation naming (held self.old)) (Keep vault privilege) (said result) (installation naming (held self.new)) }
        ensures rule { self.new.rule ≡ self.old.rule }
    {
        if vault >= self.vaults.count() {
            return Err(CentreFault::NoVault { vault });
        }
        if !Kind::UserPrivilege.has(privilege) {
            return Err(CentreFault::NoPrivilege);
        }
        self.keeping.keep(vault, privilege);
        Ok(())
    }

    // Adds an edge without asking who wants it.
    pub(crate) fn seat(&mut self, edge: Edge) -> Result<(), CentreFault>
        ensures ends { InvariantHolds (installation seating (held self.old)) → Ends (R.over self.old.rule) (installation seating (held self.old)) (Seat edge) (said result) (installation seating (held self.new)) }
        ensures rule { self.new.rule ≡ self.old.rule }
    {
        if !self.names.has_edge(edge) {
            return Err(CentreFault::NoEdge);
        }
        self.add(edge)
    }

    // A user's wish to add or to remove an edge.
    pub(crate) fn command(&mut self, user: u16, change: Change) -> Result<(), CentreFault>
        ensures ends { InvariantHolds (installation service (held self.old)) → Ends (R.over self.old.rule) (installation service (held self.old)) (Command user change) (said result) (installation service (held self.new)) }
        ensures rule { self.new.rule ≡ self.old.rule }
    {
        if !Kind::User.has(user) {
            return Err(CentreFault::NoUser);
        }
        if !self.names.has_edge(change.edge()) {
            return Err(CentreFault::NoEdge);
        }
        if !is_authorised(&self.rule, &self.names, &self.policy, user, change) {
            return Err(CentreFault::Unauthorised);
        }
        self.change(change)
    }

    // Performs the first message that waits at a vault on its table, and leaves it waiting.
    fn visit(&mut self, vault: usize) -> Result<(), CentreFault>
        ensures { Visited applied vault (held self.old) result (held self.new) }
    {
        if vault >= self.vaults.count() {
            return Err(CentreFault::NoVault { vault });
        }
        match self.vaults.head(vault) {
            None => Err(CentreFault::NothingWaiting { vault }),
            Some(Change::Add(edge)) => self.vaults.put(vault, edge),
            Some(Change::Remove(edge)) => {
                self.vaults.drop(vault, edge);
                Ok(())
            }
        }
    }

    pub(crate) fn apply(&mut self, vault: usize) -> Result<(), CentreFault>
        ensures ends { (t : Stage) → in_naming t ≡ false → Ends (R.over self.old.rule) (installation t (held self.old)) (Apply vault) (said result) (installation t (held self.new)) }
        ensures rule { self.new.rule ≡ self.old.rule }
    {
        self.visit(vault)
    }

    // Performs it, and strikes it.
    pub(crate) fn deliver(&mut self, vault: usize) -> Result<(), CentreFault>
        ensures ends { (t : Stage) → in_naming t ≡ false → Ends (R.over self.old.rule) (installation t (held self.old)) (Deliver vault) (said result) (installation t (held self.new)) }
        ensures rule { self.new.rule ≡ self.old.rule }
    {
        self.visit(vault)?;
        self.vaults.strike(vault);
        Ok(())
    }
}
