// A ramp of two antennas: one beast or two (change request E5). The call, `beast`; which answer comes when, `theorems`. It
// stands on the promise of carrying alone.
#![tactic(auto)]

pub mod beast;
pub mod theorems;
