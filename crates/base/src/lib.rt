// Lists, finite sums, searches and lent buffers, with their laws.
#![tactic(auto)]

pub mod write;
