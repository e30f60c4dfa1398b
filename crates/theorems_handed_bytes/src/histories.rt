// Each theorem is the promise of an empty function, so that the check asks for its proof.
ghost use Rattle.theorems_handed_bytes.specs.Once.{EveryRecordOnceAt, NothingElseAt};
ghost use Rattle.theorems_handed_bytes.specs.Cases.{Computed};

// Of every report that a started reader accepts, whatever calls come after it, `dts_start` among them: handed over are
// the first so many of the matching held records, all of them once it is closed, each once and oldest first; after its
// ending nothing of it comes; joined over 48 bytes and read they are these records; left to finish it is closed.
pub fn every_record_once()
    ensures { EveryRecordOnceAt }
{}

// From `dts_start` on, all that is heard is of the reports that begin.
pub fn nothing_else()
    ensures { NothingElseAt }
{}

// One report over bytes, computed to each ending.
pub fn computed()
    ensures { Computed }
{}
