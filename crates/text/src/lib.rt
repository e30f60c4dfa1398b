// Text for what programs print: a line built up by value, `line`; words and numbers laid over a buffer, `put`.
#![tactic(auto)]

pub mod line;
pub mod put;
