ghost use Rattle.std.specs.Prelude.{◌≡◌, ◌++◌, ◌∷◌, [], List, Ok, Err, map, All, IfOk, IfErr};
ghost use Rattle.rules.specs.declared.record.CallRecord.{CallRecord as Record};
ghost use Rattle.rules.specs.Installation as rules;
ghost use Rattle.rules.specs.Installation.{service};
ghost use Rattle.rules.specs.Outcomes.{Performs};
ghost use Rattle.rules.specs.Runs.{recorded, Run};
ghost use Rattle.centre.specs.Sayings.{said};
ghost use Rattle.centre.specs.declared.installation.Installation.TheVariants as at_stage;
ghost use Rattle.centre.specs.Installed.{state, rule_of, Gives};
ghost use Rattle.centre.specs.Promises.{Kept, Does, OwnAnswer, RunFrom};

use crate::begin::{NotBegun, begin};
use crate::installation::Installation;
use crate::naming::Naming;
use crate::seating::Seating;
use crate::service::Service;
use calls::Call;
use precedence::Precedence;
use rules::{CallRecord, CentreFault};
use std::alloc::Global;
use vaults::Bank;

// The answer to a call that has no value of its own.
fn zero(answer: Result<(), CentreFault>) -> Result<u16, CentreFault>
    ensures { result ≡ said answer }
{
    answer?;
    Ok(0)
}

impl<B: Bank, R: Precedence> Naming<B, R> {
    // A call while naming; 20 to one that belongs to another stage.
    fn give(self, call: Call) -> (Installation<B, R>, Result<u16, CentreFault>)
        ensures { Gives R.over (at_stage.Naming self) call result.1 result.0 }
    {
        let mut naming = self;
        match call {
            Call::Declare(change) => {
                let answer = naming.declare(change);
                (Installation::Naming(naming), answer)
            }
            Call::Keep { vault, privilege } => {
                let answer = naming.keep(vault, privilege);
                (Installation::Naming(naming), zero(answer))
            }
            Call::EndNaming => (Installation::Seating(naming.end()), Ok(0)),
            _ => {
                let answer = naming.refuse(call);
                (Installation::Naming(naming), answer)
            }
        }
    }
}

impl<B: Bank, R: Precedence> Seating<B, R> {
    // A call while seating.
    fn give(self, call: Call) -> (Installation<B, R>, Result<u16, CentreFault>)
        ensures { Gives R.over (at_stage.Seating self) call result.1 result.0 }
    {
        let mut seating = self;
        match call {
            Call::Seat(edge) => {
                let answer = seating.seat(edge);
                (Installation::Seating(seating), zero(answer))
            }
            Call::Apply { vault } => {
                let answer = seating.apply(vault);
                (Installation::Seating(seating), zero(answer))
            }
            Call::Deliver { vault } => {
                let answer = seating.deliver(vault);
                (Installation::Seating(seating), zero(answer))
            }
            Call::Open => (Installation::Service(seating.open()), Ok(0)),
            _ => {
                let answer = seating.refuse(call);
                (Installation::Seating(seating), answer)
            }
        }
    }
}

impl<B: Bank, R: Precedence> Service<B, R> {
    /// A call to an installation in service, which stays with its holder; 20 to one that belongs to an earlier
    /// stage.
    pub fn hear(&mut self, call: Call) -> Result<u16, CentreFault>
        ensures { Does R.over service self.old call result self.new }
    {
        match call {
            Call::Command { user, change } => zero(self.command(user, change)),
            Call::Apply { vault } => zero(self.apply(vault)),
            Call::Deliver { vault } => zero(self.deliver(vault)),
            _ => self.refuse(call),
        }
    }

    fn give(self, call: Call) -> (Installation<B, R>, Result<u16, CentreFault>)
        ensures { Gives R.over (at_stage.Service self) call result.1 result.0 }
    {
        let mut service = self;
        let answer = service.hear(call);
        (Installation::Service(service), answer)
    }
}

// A call at whatever stage it is.
fn step<B: Bank, R: Precedence>(
    at: Installation<B, R>,
    call: Call,
) -> (Installation<B, R>, Result<u16, CentreFault>)
    ensures { Gives R.over at call result.1 result.0 }
{
    match at {
        Installation::Naming(naming) => naming.give(call),
        Installation::Seating(seating) => seating.give(call),
        Installation::Service(service) => service.give(call),
    }
}

/// Gives one call at whatever stage it is, and tells its answer; 20 to a call that its stage has not.
#[tactic(auto, using(crate::proofs::Runs::run_more))]
pub fn give<B: Bank, R: Precedence>(
    at: Installation<B, R>,
    call: Call,
) -> (Installation<B, R>, Result<u16, CentreFault>)
    ensures gives { Gives R.over at call result.1 result.0 }
    ensures extends { (s : rules.Installation) (h : List Record) → Run (R.over (rule_of at)) s h (state at) → Run (R.over (rule_of at)) s (h ++ (recorded call result.1 ∷ [])) (state result.0) }
    ensures laws { Kept (R.over (rule_of result.0)) (state result.0) }
{
    let (next, answer) = step(at, call);
    next.laws();
    (next, answer)
}

/// Begins, and gives every call of a list, one after another; each answer is written into its record.
pub fn run<B: Bank, R: Precedence>(
    alloc: Global,
    bank: B,
    rule: R,
    calls: &mut [CallRecord],
) -> Result<Installation<B, R>, NotBegun<B, R>>
    ensures asked { map (λ r. r.call) calls.new ≡ map (λ r. r.call) calls.old }
    ensures ran { IfOk result (λ i. RunFrom (R.over rule) (B.sites bank) calls.new (state i)) }
    ensures rule { IfOk result (λ i. rule_of i ≡ rule) }
    ensures laws { IfOk result (λ i. Kept (R.over rule) (state i)) }
    ensures own { IfOk result (λ i. All OwnAnswer calls.new) }
    ensures back { IfErr result (λ b. (b.bank ≡ bank) × (b.rule ≡ rule) × (calls.new ≡ calls.old)) }
{
    let mut at = Installation::Naming(begin(alloc, bank, rule)?);
    for record in calls.iter_mut() {
        let (next, answer) = give(at, record.call);
        at = next;
        record.answer = answer;
    }
    at.laws();
    Ok(at)
}
