// The forwarding step, over any ground, policy and link.
#![tactic(auto)]

pub mod carried;
pub mod course;
pub mod step;
pub mod verdict;
