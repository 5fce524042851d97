//! The session endpoints of a connection, by their channels and by the calls that made them (OASIS AMQP 1.0, part 2, section 2.5).
#![tactic(auto)]

pub use amqp_calls;
pub use sessions::{Sessions, Waiting};

mod copies;
pub mod endpoint;
mod hearing;
pub mod laws;
mod linking;
mod queue;
pub mod sessions;
mod stopping;
