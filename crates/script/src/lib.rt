// A script: one line in, one answer out, over a run of any named family and any calendar.

#![tactic(auto)]

pub mod fault;
pub mod line;
