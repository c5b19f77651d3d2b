// The buffer that the radio fills with what it received.
#![tactic(auto)]

pub mod buffer;
#[cfg(test)]
mod tests;
