// Record access with the table (document 01, "RACP and notifications"): the running report and its next record,
// `report`; the call that answers a write to the Record Access Control Point, `record_access`.
#![tactic(auto)]

pub mod access;
pub mod report;
