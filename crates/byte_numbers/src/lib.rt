// Numbers in bytes, low byte first: read from a slice, and put into one.
#![tactic(auto)]

pub mod read;
pub mod write;
