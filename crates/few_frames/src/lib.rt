//! Laws over how many frames sessions and links write (OASIS AMQP 1.0, part 2, sections 2.5 to 2.7).
//!
//! Each function is empty: its contract is the law. Heartbeats, which a connection writes, are not among these frames.
#![tactic(auto)]

pub mod few;
