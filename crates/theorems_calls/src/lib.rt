// Theorems on single calls, above the crates of those calls: record access and notifications, `of_transfer`; time
// updates, `of_update`; joining and reading, `of_tablet`. No code of its own.
#![tactic(auto)]

pub mod of_tablet;
pub mod of_transfer;
pub mod of_update;
