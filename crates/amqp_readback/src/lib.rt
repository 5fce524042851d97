//! What was written is read back: values, messages and the bodies of frames (OASIS AMQP 1.0, parts 1, 2, 3 and 5).
//!
//! Each function of `value`, `message` and `body` writes and reads what it wrote, and its contract is the law. Those of
//! `spelling_laws` are empty.
#![tactic(auto)]

pub use body::{body_read_back, sasl_read_back};
pub use message::message_read_back;
pub use value::value_read_back;

pub mod body;
pub mod message;
pub mod spelling_laws;
pub mod value;
