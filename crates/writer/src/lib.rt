// The writer: from a packet to octets.
#![tactic(auto)]

pub mod checks;
pub mod headers;
pub mod write;
