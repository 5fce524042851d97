//! Laws over the answers to calls for links: the frames that they stand for (OASIS AMQP 1.0, part 2, section 2.6).
//!
//! Each function is empty: its contract is the law.
#![tactic(auto)]

pub mod laws;
pub mod worlds;
