// Logic families: the interface that a run is written against, and the names that a script uses.

#![tactic(auto)]

pub mod family;
pub mod named;
pub mod values;
