//! One end of AMQP 1.0: a connection, the session endpoints above it, and their links.
#![tactic(auto)]

pub use amqp_sessions::amqp_calls;
pub use end::{End, EndError};

mod asking;
pub mod end;
mod linking;
mod running;
pub mod stopped;
