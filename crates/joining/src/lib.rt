// The tablet's half of a report (document 01, "RACP and notifications"): segments joined into records, `joining`; a
// joined record read, `reading`.
#![tactic(auto)]

pub mod joining;
pub mod reading;
