// The tablet's own copy of a reader's log, over whole reports: what was heard is joined and kept. No code of its own.
#![tactic(auto)]

pub mod copies;
