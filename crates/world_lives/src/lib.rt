//! Laws over the lives of two ends that share a connection (OASIS AMQP 1.0, part 2, sections 2.5 and 2.6).
//!
//! - `ends`: a link of an end, its session and its links together.
//! - `worlds`: the sessions and links of two ends that make steps from the start; messages between them.
//! - `links`: the same, where the tables of both agree with their links.
//! - `starts`: the same from between two steps on, for the first link on a handle.
//! - `words`, `outcomes`: outcomes and credit (sections 2.6.7 and 2.6.12).
//! - `credit`: credit, where the tables of both agree with their links.
//! - `windows`: the windows of sessions (section 2.5.6).
//!
//! Each function is empty: its contract is the law.
#![tactic(auto)]

pub mod credit;
pub mod ends;
pub mod links;
pub mod outcomes;
pub mod starts;
pub mod windows;
pub mod words;
pub mod worlds;
