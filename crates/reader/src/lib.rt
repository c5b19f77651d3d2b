// The reader: from received octets to a packet.
#![tactic(auto)]

pub mod checks;
mod framed;
pub mod headers;
pub mod read;
