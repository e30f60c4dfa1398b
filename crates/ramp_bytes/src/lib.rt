// One beast or two, and the later of the newest updates, over what C lends, `calls`: at least 0 where it is done, below 0 minus
// the refusal number. What the numbers of a part come to, `theorems`.
#![tactic(auto)]

pub mod calls;
pub mod theorems;
