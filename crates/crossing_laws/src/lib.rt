//! Laws over the two ends of a link whose Detaches cross on the way (OASIS AMQP 1.0, part 2, sections 2.6.5 and 2.6.6).
//!
//! Each function is empty: its contract is the law.
#![tactic(auto)]

pub mod endpoints;
pub mod laws;
