// Each function stands for the theorem in its contract.
ghost use Rattle.centre.specs.DeclareCall.{DeclaringAgrees};

/// What declaring answers and leaves here is what the rules say of the call, while naming.
pub fn declaring_agrees()
    ensures { DeclaringAgrees }
{}
