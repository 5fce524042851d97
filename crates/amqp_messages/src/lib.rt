//! Messages (OASIS AMQP 1.0, part 3, section 3.2): their sections, read from bytes and written as bytes.
#![tactic(auto)]

pub use from_body::FromBody;
pub use kind::SectionKind;
pub use message::{Body, Message, OneOrMore};
pub use reading::decode_message;
pub use writing::encode_message;

pub mod content;
pub mod from_body;
pub mod kind;
pub mod message;
pub mod reading;
mod sections;
pub mod writing;
