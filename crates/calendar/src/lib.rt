#![tactic(auto)]

pub mod calendar;
pub mod checks;
pub mod client;
pub mod entry;
pub mod fault;
