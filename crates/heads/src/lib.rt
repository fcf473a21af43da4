// The head of a raw value of each type, and the slots that stand below it.
#![tactic(auto)]

pub mod nest;
pub mod open;
pub mod prelude;
pub mod slot;
