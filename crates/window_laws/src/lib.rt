//! Laws over the windows of two sessions (OASIS AMQP 1.0, part 2, section 2.5.6).
//!
//! Each function is empty: its contract is the law.
#![tactic(auto)]

pub mod windows;
