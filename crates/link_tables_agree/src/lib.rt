//! Laws over the tables of the links of an end: they agree with the links (OASIS AMQP 1.0, part 2, sections 2.6.2
//! to 2.6.4).
//!
//! Each function is empty: its contract is the law.
#![tactic(auto)]

pub mod tables;
