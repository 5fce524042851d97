//! What the words behind the program's name ask for, and the keys that they may ask for.
#![tactic(auto)]

pub mod command;
pub mod key;
