// The records of a trace that have no ring: leaves alone, and the parts of a chain.
#![tactic(auto)]

pub mod leaf;
pub mod parts;
