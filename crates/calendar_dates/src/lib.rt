// Seconds and dates of the years 2000 to 2099 (change request E4), each from the other: `dates`.
#![tactic(auto)]

pub mod dates;
