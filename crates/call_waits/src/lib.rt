//! Laws over the calls that wait at one link (OASIS AMQP 1.0, part 2, section 2.6).
//!
//! Each function is empty: its contract is the law.
#![tactic(auto)]

pub mod calls;
