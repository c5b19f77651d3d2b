// The radio queue: the frames that wait for the radio.
#![tactic(auto)]

pub mod frame;
pub mod queue;
#[cfg(test)]
mod tests;
