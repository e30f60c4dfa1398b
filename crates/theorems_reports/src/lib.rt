// Theorems over all calls of the server, from the definitions of the layers below alone: what holds from start on,
// `reach`; reports, `reports` (document 01, "RACP and notifications"). No code of its own.
#![tactic(auto)]

pub mod reach;
pub mod reports;
