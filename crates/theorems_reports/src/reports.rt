// The theorems about reports: each the promise of an empty function, so that the check asks for its proof.
ghost use Rattle.racp_notify.specs.Notify.{notify_of};
ghost use Rattle.theorems_reports.specs.Reports.{FinishedReport, HeardReport, CalmCalls};
ghost use Rattle.theorems_reports.specs.Closing.{QuietCalls, ClosingReport};
ghost use Rattle.theorems_reports.specs.Cases.{Computed};
ghost use Rattle.theorems_reports.specs.Wrong.{ShutOut};

// An accepted report asked for with any payload sizes gives exactly the matching held records.
#[tactic(auto, using(crate::proofs::ReportLaws::finished_report))]
pub fn finished_report()
    ensures { FinishedReport notify_of }
{}

// The same for a report heard among other calls.
pub fn heard_report()
    ensures { HeardReport }
{}

// Calls without a disconnect, a fault and an Abort end no report.
#[tactic(auto, using(crate::proofs::ReportLaws::calm_calls))]
pub fn calm_calls()
    ensures { CalmCalls }
{}

// Nor does a disconnect, a fault or an Abort that is refused.
#[tactic(auto, using(crate::proofs::ReportLaws::quiet_calls))]
pub fn quiet_calls()
    ensures { QuietCalls }
{}

// A report heard among other calls closes: after as many notifications answered 0 as it has segments, the next does.
pub fn closing_report()
    ensures { ClosingReport }
{}

// Reports of one table, computed: all records, a combined report among other calls, one that a fault ends.
#[tactic(auto, using(crate::proofs::CaseLaws::computed))]
pub fn computed()
    ensures { Computed }
{}

// Wrong transfers, of each of which the first theorem is false.
#[tactic(auto, using(crate::proofs::WrongLaws::shut_out))]
pub fn shut_out()
    ensures { ShutOut }
{}
