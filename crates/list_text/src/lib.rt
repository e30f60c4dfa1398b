// The listing of a log table: its lines, `lines`, and all of them in one buffer, `listing`.
#![tactic(auto)]

pub mod lines;
pub mod listing;
