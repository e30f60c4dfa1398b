// What is promised of the C boundary beyond each entry point's own equation. No code of its own.
#![tactic(auto)]

pub mod theorems;
