ghost use Rattle.std.specs.Prelude.{◌≡◌};
ghost use Rattle.example_rule.specs.Granting.{gives, granting};
ghost use Rattle.example_rule.specs.GrantingLawful.{granting_lawful};

use edges::{Change, Kind};
use graph::Paths;
use graph::search::has_path;
use precedence::Precedence;
use privileges::Privileges;

/// A rule of one's own: who may give a role a user privilege may give it to any role that reaches that
/// role.
#[derive(Clone, Copy)]
pub struct Grants;

fn gives<G: Paths>(policy: &G, held: Change, wanted: Change) -> bool
    ensures { result ≡ gives (G.Graph.edges policy.now) held wanted }
{
    match (held, wanted) {
        (Change::Add(held), Change::Add(wanted)) => {
            Kind::Role.has(held.from)
                && Kind::Role.has(wanted.from)
                && Kind::UserPrivilege.has(held.to)
                && held.to == wanted.to
                && has_path(policy, wanted.from, held.from)
        }
        _ => false,
    }
}

impl Precedence for Grants {
    ghost over = { λ _. granting };

    ghost lawful = { λ _. granting_lawful };

    fn stands<G: Paths>(
        &self,
        _privileges: &Privileges,
        policy: &G,
        held: Change,
        wanted: Change,
    ) -> bool {
        held == wanted || gives(policy, held, wanted)
    }
}
