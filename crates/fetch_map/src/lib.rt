// The map of numbers received, beside the tablet's copy of a log (change request E10), a call in each module: `tell`, `take`, `count`.
#![tactic(auto)]

pub mod count;
pub mod refusal;
pub mod take;
pub mod tell;
