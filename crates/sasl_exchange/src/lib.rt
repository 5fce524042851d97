//! The mechanisms of SASL at one end, in SASL bodies alone (OASIS AMQP 1.0, part 5, section 5.3): ANONYMOUS (RFC 4505),
//! PLAIN (RFC 4616) and SCRAM (RFC 5802, RFC 7677), at the client and at the listener.
#![tactic(auto)]

pub use acceptor::SaslAcceptor;
pub use amqp_sasl_bodies;
pub use client::ClientExchange;
pub use error::NegotiationError;
pub use exchange::{Exchange, Turn, Verdict};
pub use init_client::InitClient;
pub use init_server::{InitCheck, InitServer};
pub use profile::SaslProfile;
pub use scram_client::ScramClientExchange;
pub use scram_server::ScramServerExchange;
pub use server::ServerExchange;

pub mod acceptor;
mod bodies;
pub mod client;
pub mod error;
pub mod exchange;
pub mod init_client;
pub mod init_server;
pub mod init_texts;
pub mod laws;
pub mod profile;
pub mod scram_client;
pub mod scram_server;
pub mod server;
