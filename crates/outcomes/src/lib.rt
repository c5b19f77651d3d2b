// What came of some octets: the packet that they are, or the refusal and its reason.
#![tactic(auto)]

pub mod examine;
pub mod reason;
pub mod refusal;
pub mod taken;
