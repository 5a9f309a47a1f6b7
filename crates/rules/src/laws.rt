// Each function stands for the theorem in its contract.
ghost use Rattle.rules.specs.Laws.{BooksHold, NumbersAnswered, LimitsHold, OrderingHolds, CallsComputed, AdministrationHolds};
ghost use Rattle.rules.specs.Distribution.{AsDistributed};
ghost use Rattle.rules.specs.Examples.{Examples, TwoVaultExamples, LimitExamples};

/// In every run: at most 512 edges and 128 declared privileges, none nested deeper than 8, and all of
/// them edges. A declared privilege has one number, the one answered, and the limits refuse only what is
/// beyond them.
pub fn books_hold()
    ensures kept { BooksHold }
    ensures numbers { NumbersAnswered }
    ensures limits { LimitsHold }
{}

/// In every run the full rule decides the privilege ordering.
pub fn ordering_holds()
    ensures { OrderingHolds }
{}

/// Each call in each installation of a run has one outcome, the computed one, and every list of calls
/// is a run.
pub fn calls_computed()
    ensures { CallsComputed }
{}

/// For every lawful rule, any limits and every run: tables follow the policy, nobody is held up,
/// precedence gains nobody a user privilege, and no message is sent in vain.
pub fn administration_holds()
    ensures { AdministrationHolds }
{}

/// Policy, told sets and settled tables are those of the procedure that sends the whole upper closure
/// and withdraws everywhere.
pub fn as_distributed()
    ensures { AsDistributed }
{}

/// The worked examples: with one vault, with two, and at the centre's own limits.
pub fn examples_hold()
    ensures { Examples }
{}

pub fn two_vault_examples_hold()
    ensures { TwoVaultExamples }
{}

pub fn limit_examples_hold()
    ensures { LimitExamples }
{}
