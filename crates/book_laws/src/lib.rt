//! Laws over the whole life of a settlement book (OASIS AMQP 1.0, part 2, sections 2.6.7 to 2.6.12).
//!
//! Each function is empty: its contract is the law.
#![tactic(auto)]

pub mod orders;
