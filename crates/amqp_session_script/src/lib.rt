//! Scripts of connections, sessions and links, and the text of their traces.
#![tactic(auto)]

pub mod keys;
pub mod laws;
pub mod line;
pub mod script;
pub mod trace_text;
