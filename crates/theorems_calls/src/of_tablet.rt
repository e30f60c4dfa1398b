// What is promised of joining and reading beyond each call's own equation: each the promise of an empty
// function, so that the check asks for its proof.
ghost use Rattle.theorems_calls.specs.OfTablet.{RefusedEmpties, Refuses, KeepsRanges, BuildsUp};
ghost use Rattle.theorems_calls.specs.TabletCases.{Computed};

#[tactic(auto, using(crate::proofs::JoinedLaws::refused_empties))]
pub fn refused_empties()
    ensures { RefusedEmpties }
{}

#[tactic(auto, using(crate::proofs::JoinedLaws::all_refused))]
pub fn refuses()
    ensures { Refuses }
{}

#[tactic(auto, using(crate::proofs::JoinedLaws::keeps_ranges))]
pub fn keeps_ranges()
    ensures { KeepsRanges }
{}

#[tactic(auto, using(crate::proofs::JoinedLaws::builds_up))]
pub fn builds_up()
    ensures { BuildsUp }
{}

pub fn computed()
    ensures { Computed }
{}
