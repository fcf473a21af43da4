// Numbers as bytes (01, "Seven-bit numbers", and "Numbers are little endian").
#![tactic(auto)]

pub mod little;
pub mod seven;
pub mod shortest;
