//! The bodies of frames as texts for people: one line each, without its line feed.
//!
//! A proof of SCRAM and whatever may be a password stand as `***`.
#![tactic(auto)]

pub mod bodies;
pub mod hidden;
mod messages;
mod payload;
pub mod sasl;
