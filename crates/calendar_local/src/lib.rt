// A record's local time (change request E4): `local`.
#![tactic(auto)]

pub mod local;
