// The texts of scripts: commands are read from lines, answers are written into a buffer.

#![tactic(auto)]

pub mod command;
pub mod parse;
mod put;
pub mod say;
