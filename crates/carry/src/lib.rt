// Carrying a stamp over the clock changes that were logged after it (document 01, "Carrying a stamp"): the call,
// `stamp`; which refusal comes when, `theorems`.
#![tactic(auto)]

pub mod stamp;
pub mod theorems;
