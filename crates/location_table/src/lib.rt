// The location table: the stations that were heard, in order of entry.
#![tactic(auto)]

pub mod entry;
pub mod numbers;
pub mod table;
