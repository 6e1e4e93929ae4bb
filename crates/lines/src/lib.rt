// The lines that a run of traces writes: what a call answered, as numbers, and numbers in decimal.
#![tactic(auto)]

pub mod answer;
pub mod asked;
pub mod output;
