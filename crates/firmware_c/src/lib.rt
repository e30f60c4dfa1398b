// What C links: the entry points of `firmware`, once more in a crate that is built as an archive for C, since a
// crate is a library or such an archive, and an archive exports its own crate's functions alone. The modules,
// names, parameters and contracts are those of `firmware`, word for word; each function is the call of its own there.
#![tactic(auto)]

pub mod calls;
pub mod errors;
pub mod events;
pub mod fetch_calls;
pub mod ramp_calls;
pub mod start;
pub mod tablet_calls;
pub mod values_read;
