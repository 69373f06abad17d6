// A board's file as the bench takes it, and the line that the bench says of it.

#![tactic(auto)]

pub mod file;
pub mod lines;
