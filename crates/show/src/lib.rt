// Packets taken apart, as lines of text.
#![tactic(auto)]

pub mod packet_lines;
pub mod report;
pub mod run;
pub mod units;
pub mod vectors_shown;
