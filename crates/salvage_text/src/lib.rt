// What the program salvage writes: the lines of a report in words, `lines`; table and lines in two buffers, `told`.
#![tactic(auto)]

pub mod lines;
pub mod told;
