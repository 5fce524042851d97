//! An end that serves a connection, and one that sends messages, with what stands in the bytes of their links.
//!
//! - `connection`: the two, over any link that can be waited for.
//! - `over`: the same over a link for which there is no end yet.
//! - `laws`: of runs over links: what stands in the bytes that were read and written (OASIS AMQP 1.0, part 2, sections 2.3 to 2.5).
//! - `listens`: of an end that serves a connection: the messages that came to it (section 2.6.14).
//!
//! The functions of `laws` and `listens` are empty: their contracts are laws.
#![tactic(auto)]

pub use connection::{connect_on, serve_on};
pub use over::{connect_over, serve_over};

pub mod connection;
pub mod laws;
pub mod listens;
pub mod over;
