// The netlist file: its parts, its faults, its reader, and the place that holds what was read.

#![tactic(auto)]

pub mod fault;
pub mod gate;
pub mod inventory;
pub mod look_over;
pub mod place;
pub mod reader;
