// Theorems on the clock state and on the events that take no table, with cases run by the checker (document 01, "Clock
// state" and "Clock events"). No code of its own.
#![tactic(auto)]

pub mod theorems;
