// The trace format as it is read: numbers, the header, the form of a record, what a trace lends and what it forges.
#![tactic(auto)]

pub mod forge;
pub mod form;
pub mod header;
pub mod input;
pub mod lend;
pub mod part;
