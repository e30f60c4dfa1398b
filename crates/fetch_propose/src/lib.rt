// What a tablet still has to ask for (change request E10): the first run of held numbers that are not received, `propose`.
#![tactic(auto)]

pub mod propose;
