// What a trace does past the ring's two ends: it sets out what it lends, overwrites it, looks at it, and hashes it all.
#![tactic(auto)]

pub mod hash;
pub mod look;
pub mod memory;
mod region;
pub mod stage;
