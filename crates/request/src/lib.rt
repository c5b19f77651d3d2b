// A packet as words, and the record that they ask for.
#![tactic(auto)]

pub mod asked;
pub mod blank;
pub mod cut;
pub mod fault;
pub mod fill;
pub mod line;
pub mod lookup;
pub mod make;
pub mod names;
pub mod numbers;
pub mod take;
#[cfg(test)]
mod tests;
pub mod words;
