// The rules for the fields that records and the clock share (document 01, "Clock state"): each as a test, `fields`; and
// for the busiest code, by bits: the two statuses of a record at once, `statuses`, a DST offset, `offsets`.
#![tactic(auto)]

pub mod fields;
pub mod offsets;
pub mod statuses;
