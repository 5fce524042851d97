//! Frames over a stream of bytes: OASIS AMQP 1.0 part 2, section 2.3.
//!
//! The outside stands here as traits (`Link`, `Source`, `Sink`), each with forms in memory.
#![tactic(auto)]

pub mod codec;
mod failures;
pub mod faulty_pipe;
pub mod frame;
mod inbox;
pub mod link;
pub mod memory;
pub mod pipe;
pub mod reading;
pub mod source;
pub mod status;
