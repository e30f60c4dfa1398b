// Theorems on stamps over whole histories of calls, from the definitions of the layers below alone (document 01,
// "Carrying a stamp"). No code of its own.
#![tactic(auto)]

pub mod stamps;
