// The roots that ctrl lines reach, in their order: tables by region, and the depth-first walk. These write the work slice while the function is lent, so
// that what holds of both is said before and after and is no type's.
#![tactic(auto)]

pub mod tables;
pub mod walk;
