//! Laws over the life of one session among all those of an end (OASIS AMQP 1.0, part 2, section 2.5).
//!
//! Each function is empty: its contract is the law.
#![tactic(auto)]

pub mod frames;
pub mod sessions;
