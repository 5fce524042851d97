//! The text of the trace of a script's steps: what two ends in memory make of them.
#![tactic(auto)]

pub use runs::{RunError, trace_text};

pub mod runs;
