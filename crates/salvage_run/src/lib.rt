// Which records salvage keeps (docs/RULES.md, "Salvage"): a slot that counts, `slot`; the longest run in one pass over all slots,
// `run`; that no run is longer and no later one as long, `theorems`.
#![tactic(auto)]

pub mod run;
pub mod slot;
pub mod theorems;
