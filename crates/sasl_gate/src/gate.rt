//! The SASL negotiation over a link (OASIS AMQP 1.0, part 5, section 5.3): protocol headers,
//! frames, and an exchange of bodies that decides who passes.

pub mod client;
pub mod negotiation;
pub mod server;
