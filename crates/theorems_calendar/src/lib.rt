// What a driver may take from the calendar (change request E4): which times it shows, `shown`; dates and lines worked out by hand, `cases`.
#![tactic(auto)]

pub mod cases;
pub mod shown;
