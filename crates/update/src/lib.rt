// The server's calls that write the log table: starting a reader, `start`; the time fault, `fault`; a time update,
// `time_update`. Each tests its rows at the door, decides, and then writes.
#![tactic(auto)]

pub mod fault;
pub mod start;
pub mod time_update;
