//! Laws over the answers to calls for sessions: the frames that they stand for (OASIS AMQP 1.0, part 2, sections 2.5.1 and
//! 2.5.4).
//!
//! Each function is empty: its contract is the law.
#![tactic(auto)]

pub mod laws;
