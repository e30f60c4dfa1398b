// What holds from start on: each the promise of an empty function, so that the check asks for its proof.
ghost use Rattle.theorems_reports.specs.Reach.{Reachable, ReachedReport};
ghost use Rattle.theorems_reports.specs.Closing.{ReachedClosing};

// From start, over any calls: the clock obeys its rules and the table is sound.
pub fn reachable()
    ensures { Reachable }
{}

// From start, over any calls, an accepted report that no fault, disconnect or Abort ends.
pub fn reached_report()
    ensures { ReachedReport }
{}

// From start, over any calls, an accepted report closes among calls that do not end it.
pub fn reached_closing()
    ensures { ReachedClosing }
{}
