// Reader names: the parser, and which kinds their heads name. It decides the grammar alone (33 to 38), from left to right, and leaves a word for each head.
#![tactic(auto)]

pub mod bytes;
pub mod kinds;
pub mod parse;
pub mod tables;
pub mod texts;
