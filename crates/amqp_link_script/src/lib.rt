//! The words of links in scripts, and the text of the answers to their calls.
#![tactic(auto)]

pub mod answers;
pub mod calls;
pub mod disposals;
pub mod keys;
pub mod messages;
mod partings;
mod regulating;
pub mod settings;
pub mod words;
