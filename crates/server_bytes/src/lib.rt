// The server's calls over the bytes that C holds: the state comes as its image and goes back as one. Each
// answers at least 0 where it is done, below 0 minus the paper's refusal number.
#![tactic(auto)]

pub mod calls;
pub mod events;
mod results;
pub mod start;
pub mod values_read;
