// A simulator written apart from the bench, to disagree with it where one of them is wrong.
// It works by brute force from what a signal is: the level of every net at every tick is kept,
// and each new tick is worked out from them, the port values and the start levels. It has no
// calendar and no events, and its own values, file reader, script reader and answers.
// Kept as it is: kinds, refusals and readers stand here and in the bench; the two share nothing.

#![tactic(auto)]

pub mod board;
pub mod family;
pub mod kind;
pub mod nine;
pub mod pull;
pub mod refusal;
pub mod script;
pub mod simulator;
