// A run over the logs of a season, one table at a time (change request E12).
#![tactic(auto)]

pub mod step;
