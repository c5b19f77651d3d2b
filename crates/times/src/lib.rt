// Lifetimes and timestamps.
#![tactic(auto)]

pub mod lifetime;
pub mod timestamp;
pub mod unit;
