// What is promised of record access and notifications beyond each call's own equation: each the promise of
// an empty function, so that the check asks for its proof.
ghost use Rattle.racp_access.specs.Access.{access_of};
ghost use Rattle.theorems_calls.specs.OfTransfer.{RefusedUnchanged, AcceptedWhenMatching, NumberCounts, Obeys};
ghost use Rattle.theorems_calls.specs.TransferCases.{Computed};

// A refusal changes nothing and closes nothing.
#[tactic(auto, using(crate::proofs::AnswerLaws::refused_unchanged))]
pub fn refused_unchanged()
    ensures { RefusedUnchanged }
{}

// A report begins exactly when a held record matches, with the first of them.
#[tactic(auto, using(crate::proofs::AnswerLaws::accepted_when_matching))]
pub fn accepted_when_matching()
    ensures { AcceptedWhenMatching access_of }
{}

// Number counts the held records that match.
#[tactic(auto, using(crate::proofs::AnswerLaws::number_counts))]
pub fn number_counts()
    ensures { NumberCounts access_of }
{}

// A clock that obeys its rules with the table obeys them after each call.
#[tactic(auto, using(crate::proofs::ObeyLaws::obeys))]
pub fn obeys()
    ensures { Obeys }
{}

// The vectors of notifications and record access.
pub fn computed()
    ensures { Computed }
{}
