//! SCRAM (RFC 5802; RFC 7677): the texts, the keys, and a machine for each end, with SHA-1, SHA-256 or SHA-512.
//!
//! Users have one or more characters from 0x20 to 0x7e, passwords none or more of them, so that SASLprep (RFC 4013)
//! leaves them as they are. There is no channel binding and no authorization identity.
#![tactic(auto)]

pub use any_client::AnyScramClient;
pub use any_server::AnyScramServer;
pub use client::{ClientAnswer, ClientPhase, ScramClient};
pub use error::ScramErrorKind;
pub use hash::ScramHash;
pub use provider::{NoUsers, OneUser, PlainCredentialProvider, ScramCredentialProvider};
pub use server::{Challenge, ScramServer, ServerPhase};
pub use stored::StoredPassword;

pub mod any_client;
pub mod any_server;
pub mod client;
mod count;
mod encoding;
pub mod error;
mod escape;
mod extensions;
pub mod hash;
pub mod keys;
pub mod profile;
pub mod provider;
pub mod server;
pub mod stored;
pub mod texts;
