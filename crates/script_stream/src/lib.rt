// A script that is read from a stream: lines end with 0A, the last may lack it, and a long line is never held whole.

#![tactic(auto)]

pub mod held;
pub mod stream;
pub mod verdict;
