// How a value begins and ends: its type id before its raw value, and its row after its children.
#![tactic(auto)]

pub mod close;
pub mod start;
