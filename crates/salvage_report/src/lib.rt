// The report of a salvaged table (docs/RULES.md, "Salvage"): an entry's bytes, `entry`; what it is of, `kind`; those of header fields, `fields`; those of
// slots, `slots`.
#![tactic(auto)]

pub mod entry;
pub mod fields;
pub mod kind;
pub mod slots;
