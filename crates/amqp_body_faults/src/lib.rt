//! Why bytes are no body of a frame: where the first part is that is refused, and the reason (OASIS AMQP 1.0, part 2, section 2.3.2, and
//! part 5, section 5.3.2).
#![tactic(auto)]

pub use amqp_faults::{Fault, Reason};
pub use body::fault_in_body;
pub use sasl::fault_in_sasl;

pub mod body;
mod list;
pub mod sasl;
