ghost use Rattle.precedence.specs.Precedence.{plain_rule};
ghost use Rattle.precedence.proofs.Ordering.{rules_lawful};

use edges::Change;
use graph::Paths;
use precedence::Precedence;
use privileges::Privileges;

/// The rule without precedence: a privilege stands over its own change alone.
#[derive(Clone, Copy)]
pub struct Plain;

impl Precedence for Plain {
    ghost over = { λ _. plain_rule };

    ghost lawful = { λ _. rules_lawful.0 };

    fn stands<G: Paths>(
        &self,
        _privileges: &Privileges,
        _policy: &G,
        held: Change,
        wanted: Change,
    ) -> bool {
        held == wanted
    }
}
