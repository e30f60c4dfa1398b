// The calls on the map of numbers received, over what C lends: the map as words, the told range as three numbers, the request to send
// for a run as its seven bytes.
#![tactic(auto)]

pub mod calls;
pub mod request;
pub mod told;
