// A proposed time judged, by value (document 01, "Time updates"): the operand read, `proposal`; grades, `grades`; the
// grounds with their flags, `grounds`. What is then done stands above.
#![tactic(auto)]

pub mod grades;
pub mod grounds;
pub mod proposal;
