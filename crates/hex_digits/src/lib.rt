// Hexadecimal, there and back.
#![tactic(auto)]

pub mod decode;
pub mod encode;
pub mod fault;
pub mod number;
#[cfg(test)]
mod tests;
