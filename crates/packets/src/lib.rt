// The six kinds of packet, as records.
#![tactic(auto)]

pub mod common;
pub mod fault;
pub mod headers;
pub mod kind;
pub mod packet;
