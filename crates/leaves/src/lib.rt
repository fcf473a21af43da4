// Values without children: texts, image levels, characters, values of fixed size and shared references.
#![tactic(auto)]

pub mod plain;
pub mod read;
pub mod run;
