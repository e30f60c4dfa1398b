// A record kept in the tablet's own copy of a reader's log: the call, `keep`; what it leaves, `theorems`.
#![tactic(auto)]

pub mod keep;
pub mod theorems;
