// Salvage (docs/RULES.md): the call, `salvage`.
#![tactic(auto)]

pub mod salvage;
