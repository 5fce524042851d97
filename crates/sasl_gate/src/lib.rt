//! Passwords checked over SASL, over a link (OASIS AMQP 1.0, part 5, section 5.3): ANONYMOUS (RFC 4505), PLAIN (RFC 4616)
//! and SCRAM (RFC 5802, RFC 7677), both ends.
#![tactic(auto)]

pub use gate::client::{ClientGate, poll_client};
pub use gate::negotiation::{GatePoll, SASL_HEADER};
pub use gate::server::{ServerGate, poll_server};
pub use sasl_exchange;
pub use sasl_exchange::{
    ClientExchange, InitCheck, InitClient, InitServer, NegotiationError, SaslAcceptor, SaslProfile,
    ScramClientExchange, ScramServerExchange, ServerExchange, amqp_sasl_bodies,
};
pub use sasl_scram::{
    AnyScramClient, AnyScramServer, Challenge, ClientAnswer, ClientPhase, NoUsers, OneUser,
    PlainCredentialProvider, ScramClient, ScramCredentialProvider, ScramErrorKind, ScramHash,
    ScramServer, ServerPhase, StoredPassword,
};

pub mod gate;
pub mod laws;
