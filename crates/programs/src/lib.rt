// What the programs share: the lines of a table read and written, `lines`; the end of a run, `ending`.
#![tactic(auto)]

pub mod ending;
pub mod lines;
