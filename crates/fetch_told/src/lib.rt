// The range of numbers that a tablet is told its reader holds (change request E10): what lies inside, by number and word by word.
#![tactic(auto)]

pub mod told;
