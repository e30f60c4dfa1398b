// The drivers' sheet: the lines of a loading day, put together by value.
#![tactic(auto)]

pub mod sheet;
pub mod theorems;
