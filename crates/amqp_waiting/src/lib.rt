//! The commands of the program that wait for a peer.
#![tactic(auto)]

pub use run::run_waiting;

pub mod run;
