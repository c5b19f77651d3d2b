// A situation in words: where we, the sender, the target and the stations are, and what is to be carried on.
#![tactic(auto)]

pub mod fill;
pub mod halves;
pub mod line;
pub mod lookup;
pub mod names;
pub mod told;
pub mod values;
pub mod words;
