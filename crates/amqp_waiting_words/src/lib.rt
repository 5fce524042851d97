//! What the words of a command line ask for that waits for a peer.
#![tactic(auto)]

pub use command::{Command, Mechanism, Options, is_waiting_word, read_command};

pub mod command;
