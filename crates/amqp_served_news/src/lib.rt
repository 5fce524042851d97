//! What an answer says to an end that serves a connection.
#![tactic(auto)]

pub use news::news_of;

pub mod news;
