// What follows from the promises of salvage: each the promise of an empty function, so that the check asks for its proof.
ghost use Rattle.theorems_salvage.specs.Result.{ComesBack, Twice};
ghost use Rattle.theorems_salvage.specs.Noted.{KeptOrReported};
ghost use Rattle.theorems_salvage.specs.Carried.{CarriesAlike};
ghost use Rattle.theorems_salvage.specs.Answers.{AnswersWhen, EnoughRoom, AtBoundary};

// The table that comes back is sound, and its records are those of the run, unaltered.
pub fn comes_back()
    ensures { ComesBack }
{}

// Salvaged twice, a table does not change the second time.
#[tactic(auto, using(crate::proofs::TwiceLaws::twice))]
pub fn twice()
    ensures { Twice }
{}

// Each slot is either kept or in the report, never both.
pub fn kept_or_reported()
    ensures { KeptOrReported }
{}

// Carrying over the result answers as over the reader's table, where records and next number are those that the reader wrote.
#[tactic(auto, using(crate::proofs::CarriedLaws::carries_alike))]
pub fn carries_alike()
    ensures { CarriesAlike }
{}

// Each refusal exactly where its row says so.
#[tactic(auto, using(crate::proofs::AnswerLaws::answers))]
pub fn answers()
    ensures { AnswersWhen }
{}

// With room for the largest table and any report, 3 never comes.
#[tactic(auto, using(crate::proofs::AnswerLaws::enough_room))]
pub fn enough_room()
    ensures { EnoughRoom }
{}

// A refusal writes nothing; where it is done, the bytes past what is written stay, and the report is no longer than the header says.
#[tactic(auto, using(crate::proofs::AnswerLaws::at_boundary))]
pub fn at_boundary()
    ensures { AtBoundary }
{}
