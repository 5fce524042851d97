//! Clients that send messages to the peer of a URL, and receive them.
#![tactic(auto)]

pub use clients::{ending_of_io, receive, send};

mod address;
pub mod clients;
mod progress;
mod receiving;
mod report;
mod sending;
mod session;
