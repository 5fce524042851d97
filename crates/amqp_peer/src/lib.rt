//! One end of AMQP 1.0: calls, bytes, moments.
#![tactic(auto)]

pub use peer::{Peer, PeerError, PeerKind};
pub use prepared::Prepared;

mod drops;
pub mod held;
mod held_sessions;
mod passing;
pub mod peer;
pub mod prepared;
pub mod promises;
pub mod valid;
