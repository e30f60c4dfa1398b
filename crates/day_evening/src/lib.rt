// The evening of a loading day, `fetch`: a reader's log fetched over the air, the day's stamps carried by it, and both
// stamps of a tag compared.
#![tactic(auto)]

pub mod fetch;
