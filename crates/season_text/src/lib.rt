// The lines of the season figures (change request E12), laid over a buffer.
#![tactic(auto)]

pub mod lines;
