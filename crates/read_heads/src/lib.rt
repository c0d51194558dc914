// Readers of func, const and param lines, and of region lines.
#![tactic(auto)]

pub mod heads;
pub mod regions;
