// What a client reads of the three characteristics: Device Time Feature, Device Time Parameters and Device
// Time (document 002, Sections 3.1 to 3.3).
#![tactic(auto)]

pub mod theorems;
pub mod value;
