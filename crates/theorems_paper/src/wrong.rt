// The servers that document 01 shuts out: each promise holds of the right server, and of no wrong one.
ghost use Rattle.theorems_paper.specs.Wrong.{UpdatesShutOut, AccessShutOut, FaultsShutOut};

// Time updates: rejecting every proposal, Success to all, never logging, a corrected time, the first ground only,
// an unsigned difference.
#[tactic(auto, using(crate::proofs::UpdateLaws::updates_shut_out))]
pub fn updates_shut_out()
    ensures { UpdatesShutOut }
{}

// Record access: a Number not counted from held records, a report accepted where nothing matches.
#[tactic(auto, using(crate::proofs::AccessLaws::access_shut_out))]
pub fn access_shut_out()
    ensures { AccessShutOut }
{}

// Time faults: a report that runs on, one that ends without its response.
#[tactic(auto, using(crate::proofs::FaultLaws::faults_shut_out))]
pub fn faults_shut_out()
    ensures { FaultsShutOut }
{}
