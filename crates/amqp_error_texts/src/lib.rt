//! Errors of sessions and links in the text of a trace.
#![tactic(auto)]

pub mod links;
pub mod sessions;
