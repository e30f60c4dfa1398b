// Theorems on what a log table holds (document 01, "Log table, a lent buffer"): once it is started, after one record more,
// and over its whole history. No code of its own.
#![tactic(auto)]

pub mod theorems;
