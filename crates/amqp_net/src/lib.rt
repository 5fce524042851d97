//! Links that can be waited for: those in memory, and one over a socket.
#![tactic(auto)]

pub use listener::SocketListener;
pub use socket::SocketLink;
pub use wait_link::{LinkFault, WaitLink};

pub mod listener;
pub mod socket;
#[cfg(test)]
mod tests;
pub mod wait_link;
