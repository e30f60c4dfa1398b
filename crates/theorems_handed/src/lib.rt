// Every record once (change request E11): what a report hands over, however it ended. No code of its own.
#![tactic(auto)]

pub mod reports;
