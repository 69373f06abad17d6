// The parts of one tick of a run, each with its contract on lists and agendas alone.

#![tactic(auto)]

pub mod due;
pub mod moment;
pub mod plan;
pub mod report;
pub mod settle;
