// What is promised of record access beyond each call's own equation: each the promise of an empty function,
// so that the check asks for its proof.
ghost use Rattle.racp_request.specs.Cases.{Computed};

pub fn computed()
    ensures { Computed }
{}
