//! Laws over the two ends of a connection, in words of what happened at each, one file a topic: `serving_laws` and
//! `stream_laws` are of ends that carry sessions, and of what these were handed and gave.
//!
//! Each function is empty: its contract is the law.
#![tactic(auto)]

pub mod end_laws;
pub mod gate_laws;
pub mod rest_laws;
pub mod serving_laws;
pub mod stream_laws;
