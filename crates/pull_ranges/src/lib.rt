// Pull ranges: how hard a net is pulled up and down, each known to lie between two strengths.

#![tactic(auto)]

pub mod pulls;
pub mod range;
