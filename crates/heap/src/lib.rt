#![tactic(auto)]

pub mod heap;
mod marks;
mod pile;
mod sift;
