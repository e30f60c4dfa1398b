// What a fetch of a proposed run leaves, with the reader's report and the tablet's copy (change request E10). No code of its own.
#![tactic(auto)]

pub mod fetches;
