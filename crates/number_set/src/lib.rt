#![tactic(auto)]

pub mod calls;
pub mod set;
mod word;
