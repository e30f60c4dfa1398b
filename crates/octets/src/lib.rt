// What every layer above reads and writes with: numbers in bytes, `numbers` and `words`; parts of byte strings, `parts`; bytes by
// value, `bytes`; two tests put together, `choice`.
#![tactic(auto)]

pub mod bytes;
pub mod choice;
pub mod numbers;
pub mod parts;
pub mod words;
