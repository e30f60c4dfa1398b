// Every record once (change request E11) over the bytes that the C side holds. No code of its own.
#![tactic(auto)]

pub mod histories;
