// Theorems on the season figures (change request E12): the whole run as its step, one entry after the other, over the
// bytes of an input. No code of its own.
#![tactic(auto)]

pub mod theorems;
