// What is promised of the clock beyond each call's own equation: each the promise of an empty function,
// so that the check asks for its proof.
ghost use Rattle.theorems_clock.specs.Theorems.{RefusedUnchanged, Obeys, Ticks};
ghost use Rattle.theorems_clock.specs.Cases.{Computed};

#[tactic(auto, using(crate::proofs::PromiseLaws::refused_unchanged))]
pub fn refused_unchanged()
    ensures { RefusedUnchanged }
{}

#[tactic(auto, using(crate::proofs::PromiseLaws::obeys))]
pub fn obeys()
    ensures { Obeys }
{}

#[tactic(auto, using(crate::proofs::PromiseLaws::ticks))]
pub fn ticks()
    ensures { Ticks }
{}

pub fn computed()
    ensures { Computed }
{}
