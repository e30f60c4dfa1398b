// What is promised of one beast or two beyond the call's own equation: each the promise of an empty function, so that the check
// asks for its proof.
ghost use Rattle.ramp.specs.Theorems.{AnswersWhen};
ghost use Rattle.ramp.specs.Cases.{Computed};

// Each refusal and each side exactly where the request says so, and "one" exactly where the ages are that close.
pub fn answers()
    ensures { AnswersWhen }
{}

// Cases worked out by hand.
pub fn computed()
    ensures { Computed }
{}
