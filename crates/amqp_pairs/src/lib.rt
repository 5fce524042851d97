//! Laws over the two ends of a SASL exchange, one file a topic.
//!
//! Each function is empty: its contract is the law.
#![tactic(auto)]

pub mod exchange_laws;
pub mod failure_laws;
pub mod init_laws;
pub mod joining_laws;
pub mod mechanism_laws;
pub mod stream_laws;
