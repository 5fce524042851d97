//! Hexadecimal from a source, and the lines of its headers and frames into a sink.
#![tactic(auto)]

pub mod digits;
pub mod ending;
pub mod run;
