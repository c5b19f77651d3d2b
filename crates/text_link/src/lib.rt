// The text link: frames as lines of text, for a log or a pipe.
#![tactic(auto)]

mod line;
#[cfg(test)]
mod tests;
pub mod text;
