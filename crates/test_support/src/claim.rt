ghost use Rattle.std.specs.Prelude.{◌≡◌, true, false, MatchResult};

use std::test::Fail;

/// A fact that a test claims: if it is none, the test fails and says which.
pub fn claim(fact: bool, what: &str) -> Result<(), Fail>
    ensures { MatchResult result (λ _. fact ≡ true) (λ _. fact ≡ false) }
{
    if fact { Ok(()) } else { Err(Fail::new(what)) }
}
