//! Why bytes are no message (OASIS AMQP 1.0, part 3, section 3.2): where the first part is that is refused, and the reason.
#![tactic(auto)]

pub use amqp_faults::{Fault, Reason};
pub use message::fault_in_message;

mod content;
pub mod message;
mod order;
mod section;
