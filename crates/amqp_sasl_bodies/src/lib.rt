//! The bodies of SASL frames (OASIS AMQP 1.0, part 5, section 5.3.3): the described lists, as values and in bytes.
#![tactic(auto)]

pub use sasl::{SaslChallenge, SaslInit, SaslMechanisms, SaslOutcome, SaslResponse};
pub use sasl_body::SaslBody;
pub use sasl_bytes::{FRAME_TYPE_SASL, decode_sasl, encode_sasl};
pub use sasl_code::SaslCode;

pub mod laws;
pub mod sasl;
pub mod sasl_body;
pub mod sasl_bytes;
pub mod sasl_code;
