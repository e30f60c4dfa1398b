// The clock state and the joining state as bytes, for a caller that keeps them in buffers between calls.
#![tactic(auto)]

pub mod state;
