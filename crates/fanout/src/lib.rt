#![tactic(auto)]

mod due;
mod gates;
pub mod link;
pub mod pin;
mod plan;
mod settle;
pub mod wiring;
pub mod work;
