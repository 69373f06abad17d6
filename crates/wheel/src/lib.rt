#![tactic(auto)]

mod roster;
pub mod wheel;
