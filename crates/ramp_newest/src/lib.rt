// The later of two logs' newest Time_Updates (change request E5), for the driver who asks why: the calls, `newest`; what they come
// to, `theorems`.
#![tactic(auto)]

pub mod newest;
pub mod theorems;
