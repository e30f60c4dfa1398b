// What is promised of a whole run over the logs of a season, beyond the equation of each step: each the promise of an
// empty function, so that the check asks for its proof.
ghost use Rattle.theorems_season.specs.Theorems.{Prints, EveryInput, Exact, Ends, Leaves};
ghost use Rattle.theorems_season.specs.Cases.{Computed};

// What a run writes: a line for each table in order, `ended` where the run ends before its input does, and the total,
// whose figures are the true sums.
#[tactic(auto, using(crate::proofs::RunLaws::prints))]
pub fn prints()
    ensures { Prints }
{}

// Every input is whole entries in a row, and then nothing or what can't be taken: `prints` speaks of all.
#[tactic(auto, using(crate::proofs::EntryLaws::every_input))]
pub fn every_input()
    ensures { EveryInput }
{}

// How large totals can be, and that 32 and 64 bits hold them.
#[tactic(auto, using(crate::proofs::TotalLaws::exact))]
pub fn exact()
    ensures { Exact }
{}

// A run ends after at most 65,536 steps.
#[tactic(auto, using(crate::proofs::RunLaws::ends))]
pub fn ends()
    ensures { Ends }
{}

// What a step leaves of position and totals where it ends the run, refuses a table or goes on.
#[tactic(auto, using(crate::proofs::StepLaws::leaves))]
pub fn leaves()
    ensures { Leaves }
{}

// Runs worked out by hand.
pub fn computed()
    ensures { Computed }
{}
