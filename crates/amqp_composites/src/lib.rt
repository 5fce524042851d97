//! Described lists as values: their descriptors, errors and modes (OASIS AMQP 1.0, part 1, section 1.4, and part 2, section 2.8).
#![tactic(auto)]

pub use amqp_fields;
pub use amqp_fields::amqp_data;
pub use error::Error;
pub use kind::CompositeKind;
pub use modes::{ReceiverSettleMode, Role, SenderSettleMode};

pub mod described;
pub mod error;
pub mod kind;
pub mod laws;
pub mod modes;
