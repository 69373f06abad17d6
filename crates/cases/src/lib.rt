// Boards, calls and script lines made up from a seed: the same seed always makes the same.

#![tactic(auto)]

pub mod board;
pub mod line;
pub mod random;
pub mod spoiled;
pub mod step;
pub mod value;
