// The theorem on what is missing over whole histories of fetches (change request E10), from the promises of the map's calls alone.
// No code of its own.
#![tactic(auto)]

pub mod history;
