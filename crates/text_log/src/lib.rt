// Text logs: one call a line.
#![tactic(auto)]

pub mod deliveries;
pub mod limits;
pub mod line;
pub mod lines;
pub mod number;
pub mod pieces;
mod words;
