//! Why bytes are no value (OASIS AMQP 1.0, part 1, sections 1.2 and 1.6): where the first part is that is refused, and the reason.
#![tactic(auto)]

pub use fault::{Fault, Reason};
pub use values::fault_in;

pub mod blocks;
pub mod fault;
pub mod form;
mod front;
pub mod scalars;
pub mod values;
