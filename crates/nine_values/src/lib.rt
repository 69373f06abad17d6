// The nine values of IEEE 1164 as a logic family with names.

#![tactic(auto)]

pub mod nine;
