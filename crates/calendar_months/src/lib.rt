// The months of the years 2000 to 2099 (change request E4): the table, `days`; handed out, with its rule, `months`.
#![tactic(auto)]

pub(crate) mod days;
pub mod months;
