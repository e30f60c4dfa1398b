// That the clock state, the joining state and their images stand for each other. No code of its own.
#![tactic(auto)]

pub mod theorems;
