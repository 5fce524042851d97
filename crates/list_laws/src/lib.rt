//! Lemmas that know nothing of any protocol, one file a topic.
//!
//! Each function is empty: its contract is the law.
#![tactic(auto)]

pub mod told_laws;
