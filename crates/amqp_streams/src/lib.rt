//! Sources read to their end, texts written whole, and standard input and output as such.
#![tactic(auto)]

pub mod outside;
pub mod standard;
