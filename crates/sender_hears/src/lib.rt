//! Laws over what a sender hears of its peer, among all links of an end (OASIS AMQP 1.0, part 2, sections 2.6.7 and
//! 2.6.12).
//!
//! Each function is empty: its contract is the law.
#![tactic(auto)]

pub mod senders;
