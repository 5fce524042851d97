//! The grammar of scripts, and the text of traces.
#![tactic(auto)]

pub use script::{ScriptError, parse};
pub use trace_text::text;

pub mod script;
pub mod trace_text;
