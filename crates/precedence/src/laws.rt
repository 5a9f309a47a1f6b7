// Each function stands for the theorem in its contract.
ghost use Rattle.precedence.specs.Precedence.{OrderingDecided, RemovalsUnordered, RulesLawful};
ghost use Rattle.precedence.specs.Authorisation.{AuthorisationDecided};

/// The full rule decides the privilege ordering; the plain rule and the full rule keep both laws of a rule.
/// Removals are not ordered.
pub fn ordering_decided()
    ensures decided { OrderingDecided }
    ensures removals { RemovalsUnordered }
    ensures lawful { RulesLawful }
{}

/// The computed authorisation decides who is authorised.
pub fn authorisation_decided()
    ensures { AuthorisationDecided }
{}
