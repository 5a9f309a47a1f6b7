ghost use Rattle.centre_tests.specs.UsersFirst.{for_users};
ghost use Rattle.centre_tests.specs.UsersFirstLawful.{for_users_lawful};

use edges::Change;
use graph::Paths;
use precedence::Precedence;
use precedence_rules::Full;
use privileges::Privileges;

/// A rule of the tests' own: the whole ordering, but only where a user is given a role.
#[derive(Clone, Copy)]
pub struct UsersFirst;

impl Precedence for UsersFirst {
    ghost over = { λ _. for_users };

    ghost lawful = { λ _. for_users_lawful };

    fn stands<G: Paths>(
        &self,
        privileges: &Privileges,
        policy: &G,
        held: Change,
        wanted: Change,
    ) -> bool {
        held == wanted || (wanted.edge().from < 64 && Full.stands(privileges, policy, held, wanted))
    }
}
