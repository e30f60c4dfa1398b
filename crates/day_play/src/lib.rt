// A day on a loading ramp, by value: one antenna's reader and what can happen to it, `reader`; both of them over a
// day, `play`. Each thing that happens is a call of the server.
#![tactic(auto)]

pub mod play;
pub mod reader;
