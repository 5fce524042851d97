//! What is known of each trace of two ends with sessions and links, topic by topic (OASIS AMQP 1.0, part 2).
//!
//! The function is empty: its contract is the law.
#![tactic(auto)]

pub mod laws;
