//! Laws over the calls that wait at the sessions of an end (OASIS AMQP 1.0, part 2, section 2.5).
//!
//! Each function is empty: its contract is the law.
#![tactic(auto)]

pub mod sessions;
