//! What two ends are asked to do and what they answer: the calls of connections, those of sessions and those of links.
#![tactic(auto)]

pub use amqp_link_words::{AcceptError, Disposal, LinkCall, LinkReply, NamedLinkReply, Sendable};
pub use amqp_words;
pub use call::{Call, SessionCall, SessionNumbers};
pub use reply::{NamedReply, Reply, SessionReply};
pub use step::{Act, Step};
pub use trace::{Entry, Trace};

pub mod call;
pub mod plain;
pub mod reply;
pub mod step;
pub mod trace;
