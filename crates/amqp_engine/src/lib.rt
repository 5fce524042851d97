//! Connections: Open, the frames of sessions, empty frames and Close (OASIS AMQP 1.0, part 2, sections 2.4 and 2.7).
#![tactic(auto)]

pub use amqp_transport::transport::Error as TransportError;
pub use connection::{Connection, EndKind, ListenerConnection};
pub use engine::{ConnectionEngine, EngineStep};
pub use error::{AllocSessionError, Error, stop_error};
pub use phase::Phase;

pub mod connection;
mod drops;
pub mod engine;
pub mod error;
pub mod laws;
mod limits;
pub mod phase;
mod seats;
mod sessions;
