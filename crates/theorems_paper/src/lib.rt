// The paper's twelve cases, `twelve`, its listing, `listing`, and the servers that it shuts out, `wrong` (document 01,
// "Numbers the drivers worked out" and "What the drivers hold each promise to"), on the definitions that the public
// calls' promises cite. No code of its own.
#![tactic(auto)]

pub mod listing;
pub mod twelve;
pub mod wrong;
