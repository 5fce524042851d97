//! The sections of messages that are described lists (OASIS AMQP 1.0, part 3, section 3.2): read from values and written as values.
#![tactic(auto)]

pub use header::Header;
pub use message_id::MessageId;
pub use properties::Properties;

pub mod header;
pub mod laws;
pub mod message_id;
pub mod properties;
