// The lines of standard input.
#![tactic(auto)]

pub mod answer;
pub mod line;
