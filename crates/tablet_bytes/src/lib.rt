// The tablet's calls over the bytes that C holds, `calls`: joining in the state where it stands, `join`; a record's numbers taken
// from where they stand, `read`; keeping, carrying. Each answers at least 0 where it is done, below 0 minus the paper's refusal
// number.
#![tactic(auto)]

pub mod calls;
pub mod join;
pub mod read;
