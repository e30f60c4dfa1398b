// What is promised of carrying beyond each call's own equation: each the promise of an empty function,
// so that the check asks for its proof.
ghost use Rattle.carry.specs.Theorems.{AnswersWhen, Bounded, Unchanged};
ghost use Rattle.carry.specs.Cases.{Computed};

// Each refusal exactly where its row says so.
#[tactic(auto, using(crate::proofs::CarryLaws::answers))]
pub fn answers()
    ensures { AnswersWhen }
{}

// Every carried stamp fits signed 64 bits.
#[tactic(auto, using(crate::proofs::CarryLaws::bounded))]
pub fn bounded()
    ensures { Bounded }
{}

// A stamp after which nothing was logged stays.
#[tactic(auto, using(crate::proofs::CarryLaws::unchanged))]
pub fn unchanged()
    ensures { Unchanged }
{}

pub fn computed()
    ensures { Computed }
{}
