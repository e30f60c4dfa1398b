// The entry points for the C radio firmware, over numbers and byte slices. Each is the call of `server_bytes`,
// `tablet_bytes`, `salvage_bytes`, `ramp_bytes`, `fetch_bytes` or `codes` under its name in C: at least 0 where it is
// done, below 0 minus the paper's refusal number. This is the library, for crates above; the archive that C links is
// made of `firmware_c`, which has the same functions.
#![tactic(auto)]

pub mod calls;
pub mod errors;
pub mod events;
pub mod fetch_calls;
pub mod ramp_calls;
pub mod start;
pub mod tablet_calls;
pub mod values_read;
