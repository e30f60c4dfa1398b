// One outcome of each call, over the contract that the call itself must meet: the doors of the server, of the tablet, for C and
// of the programs' crates, and what stands behind them. `of_entries`: that an entry point has an outcome at all, for any
// bytes. `weaker`: promises that two outcomes meet.
#![tactic(auto)]

pub mod of_behind;
pub mod of_boundary;
pub mod of_calendar;
pub mod of_entries;
pub mod of_fetch;
pub mod of_programs;
pub mod of_ramp;
pub mod of_records;
pub mod of_salvage;
pub mod of_server;
pub mod of_tables;
pub mod of_tablet;
pub mod weaker;
