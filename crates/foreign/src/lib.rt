// A ground, a policy and a link that nobody has by default: what the three traits mean can be met in other ways too, and
// whatever is written over the traits takes these as well.
#![tactic(auto)]

pub mod alternating;
pub mod patient;
pub mod surveyed;
#[cfg(test)]
mod tests;
