// One word of the map of numbers received (change request E10): its bits set, masked and counted, `word`; the first run of missing
// numbers looked for in it, `run`. Nothing here knows how many words a map has.
#![tactic(auto)]

pub mod run;
pub mod word;
