// What a driver may take from salvage (docs/RULES.md): theorems, each the promise of an empty function; cases worked by hand.
#![tactic(auto)]

pub mod cases;
pub mod salvaged;
pub mod wrong;
