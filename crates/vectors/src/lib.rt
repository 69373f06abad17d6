// Boards with scripts and the answers that they must have, worked out by hand from the circuit's
// gates or taken from the tables of IEEE 1164; none comes from a simulator.
// Kept as it is: kinds and gates stand here and in the bench; the two share nothing.

#![tactic(auto)]

pub mod circuits;
pub mod laid;
pub mod tables;
pub mod values;
pub mod vector;
