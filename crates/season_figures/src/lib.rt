// Season figures (change request E12): what the records that a table holds come to.
#![tactic(auto)]

pub mod figures;
