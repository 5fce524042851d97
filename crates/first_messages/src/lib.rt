//! Laws over a link before its first message, and from that on (OASIS AMQP 1.0, part 2, sections 2.5.1, 2.6.2 and
//! 2.6.12).
//!
//! - `first`: a session and a sender before it, and what arrives from that on.
//! - `sessions`: all sessions of an end before it, from the start.
//!
//! Each function is empty: its contract is the law.
#![tactic(auto)]

pub mod first;
pub mod sessions;
