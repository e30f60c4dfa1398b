// The theorem Kept: each statement the promise of an empty function, so that the check asks for its proof.
ghost use Rattle.theorems_fetch.specs.History.{Kept};
ghost use Rattle.theorems_fetch.specs.Limit.{Limit};
ghost use Rattle.theorems_fetch.specs.Cases.{Computed};
ghost use Rattle.theorems_fetch.specs.Wrong.{ShutOut};

// A bit is set exactly when its record was taken in inside the told range and has stayed inside it since; what is proposed, and how
// many are received, by that.
pub fn kept()
    ensures { Kept }
{}

// The most new records between two fetches for which that holds.
#[tactic(auto, using(crate::proofs::WrongLaws::limit))]
pub fn too_many()
    ensures { Limit }
{}

// Histories, computed.
pub fn computed()
    ensures { Computed }
{}

// Wrong ways to tell and to take in, each with a history.
#[tactic(auto, using(crate::proofs::WrongLaws::shut_out))]
pub fn shut_out()
    ensures { ShutOut }
{}
