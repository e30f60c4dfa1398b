// What is decided of a time update, by value (document 01, "Time updates"): the decision, `decide`; the clock and the
// record of a time that is taken, `accept`; the response, `response`. No buffer is written here.
#![tactic(auto)]

pub mod accept;
pub mod decide;
pub mod response;
