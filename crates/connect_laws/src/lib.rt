//! Laws over what an end does that connects, sends messages and asks for their outcomes (OASIS AMQP 1.0, part 2, section 2.6).
//!
//! Each function is empty: its contract is the law.
#![tactic(auto)]

pub mod outcomes;
pub mod sends;
