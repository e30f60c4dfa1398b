// What is asked of the Record Access Control Point, by value (document 01, "RACP and notifications"): the
// write read and checked in the paper's order. No table is looked at here; the responses stand in `codes`.
#![tactic(auto)]

pub mod request;
pub mod theorems;
