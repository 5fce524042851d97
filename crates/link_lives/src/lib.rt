//! Laws over the lives of links and sessions among all those of an end (OASIS AMQP 1.0, part 2, sections 2.5 and 2.6).
//!
//! Each function is empty: its contract is the law.
#![tactic(auto)]

pub mod links;
