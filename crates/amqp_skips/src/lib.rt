//! Values at the front of bytes that are passed over without being made (OASIS AMQP 1.0, part 1, sections 1.2 and 1.6).
#![tactic(auto)]

pub use skip::{section_start, skip_value};

pub mod skip;
mod walk;
