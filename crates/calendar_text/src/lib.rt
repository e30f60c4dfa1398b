// What the log showed, on a calendar (change request E4): a date as it is written, `written`; a record's line, `lines`.
#![tactic(auto)]

pub mod lines;
pub mod written;
