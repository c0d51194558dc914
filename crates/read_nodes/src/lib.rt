// Readers of node lines and of op lines.
#![tactic(auto)]

pub mod nodes;
pub mod ops;
