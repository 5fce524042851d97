//! Whom a listener lets in.
use amqp_text::Text;
use sasl_scram::provider::{PlainCredentialProvider, ScramCredentialProvider};

/// Whom a listener lets in: the mechanism that it offers, and its users.
#[derive(Drop)]
pub enum SaslAcceptor<Q: PlainCredentialProvider, P: ScramCredentialProvider> {
    /// There is no SASL layer, and so no gate.
    NoSasl,
    /// ANONYMOUS (RFC 4505): anybody.
    Anonymous,
    /// PLAIN (RFC 4616), with these users.
    Plain(Q),
    /// SCRAM-SHA-1 (RFC 5802), with these users and the listener's nonce: 1 or more characters from 0x21 to 0x7e other
    /// than the comma, new for each exchange.
    ScramSha1(P, Text),
    /// SCRAM-SHA-256 (RFC 7677), with the same.
    ScramSha256(P, Text),
    /// SCRAM-SHA-512, the form of RFC 7677 with SHA-512, with the same.
    ScramSha512(P, Text),
}
