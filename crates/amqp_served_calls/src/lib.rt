//! The calls that an end makes which sends over a link, receives or serves a connection.
#![tactic(auto)]

pub use calls::{
    CREDIT, accept, accept_delivery, accept_link, accept_session, begin, close, close_link, end,
    message_of, open, outcome, receiver, recv, send, sender, set_credit,
};

pub mod calls;
