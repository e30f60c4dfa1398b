// The clock state: its rules, the new reader, and the events that take no table (document 01, "Clock
// state", "Refusal numbers" and "Clock events").
#![tactic(auto)]

pub mod answers;
pub mod events;
pub mod obeys;
pub mod state;
