//! The opening of a connection over a link: the SASL layer, where there is one, and then the AMQP headers
//! (OASIS AMQP 1.0, part 2, section 2.2, and part 5, section 5.3).
#![tactic(auto)]

pub use acceptor::AcceptSasl;
pub use authentication::{Authentication, SaslCall, exchange_for};
pub use opening::{Opening, OpeningPoll, Stage};
pub use permission::{is_allowed, is_allowed_acceptor, is_allowed_profile};
pub use sasl_gate::{NegotiationError, SaslProfile};

pub mod acceptor;
pub mod authentication;
pub mod opening;
pub mod permission;
