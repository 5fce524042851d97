//! What an end is asked to do with its links, and what it answers (OASIS AMQP 1.0, part 2, section 2.6).
#![tactic(auto)]

pub use amqp_receiver;
pub use amqp_sender;
pub use link_call::{Disposal, LinkCall, Parting, Sendable};
pub use link_reply::{AcceptError, LinkReply, NamedLinkReply};
pub use names::NameList;
pub use regulation::Regulation;

mod copies;
pub mod link_call;
pub mod link_reply;
pub mod names;
pub mod regulation;
