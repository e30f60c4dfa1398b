// Each theorem is the promise of an empty function, so that the check asks for its proof.
ghost use Rattle.theorems_handed.specs.Server.{right};
ghost use Rattle.theorems_handed.specs.Once.{EveryRecordOnce};
ghost use Rattle.theorems_handed.specs.Joined.{JoiningAssembles, EveryRecordJoined};
ghost use Rattle.theorems_handed.specs.Left.{LeftToFinish};
ghost use Rattle.theorems_handed.specs.Started.{EveryReachedOnce};
ghost use Rattle.theorems_handed.specs.Cases.{Computed};
ghost use Rattle.theorems_handed.specs.Wrong.{ShutOut};

// A report hands over the first so many of the matching held records, all of them once it is closed, each once and
// oldest first; after its ending nothing of it comes.
pub fn every_record_once()
    ensures { EveryRecordOnce right }
{}

// Segments that fit together are joined as they are assembled.
pub fn joining_assembles()
    ensures { JoiningAssembles }
{}

// So the tablet refuses no segment and reads the records that were handed over whole.
pub fn every_record_joined()
    ensures { EveryRecordJoined right }
{}

// A report that is asked for often enough, among any calls that end none, is closed.
pub fn left_to_finish()
    ensures { LeftToFinish right }
{}

// From start, over any calls.
pub fn reached_once()
    ensures { EveryReachedOnce }
{}

// Reports of one table, computed to each ending.
pub fn computed()
    ensures { Computed }
{}

// Wrong servers, of each of which one of these theorems is false.
pub fn shut_out()
    ensures { ShutOut }
{}
