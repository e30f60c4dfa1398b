// The door of the calls that take the table (document 01, "Refusal numbers, tested in this order"): the rows, `rows`; the
// part of row 2 that needs the table, `whole`.
#![tactic(auto)]

pub mod rows;
mod whole;
