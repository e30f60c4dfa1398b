// The theorem on one beast or two over whole histories of calls (change request E5), from the promise of carrying alone. No code
// of its own.
#![tactic(auto)]

pub mod beasts;
