// Salvage over the bytes that C lends: at least 0 where it is done, below 0 minus the refusal number.
#![tactic(auto)]

pub mod calls;
