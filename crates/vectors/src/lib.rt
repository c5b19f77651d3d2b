// Position vectors and areas, as they stand in a packet.
#![tactic(auto)]

pub mod area;
pub mod long;
pub mod short;
