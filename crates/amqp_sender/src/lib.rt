//! The sending end of a link (OASIS AMQP 1.0, part 2, section 2.6): messages sent by credit, and what becomes of them.
#![tactic(auto)]

pub use amqp_link;
pub use error::SendError;
pub use sender::{DeliveryToken, OutcomePoll, SendReply, Sender, Settlement};
pub use settings::SenderSettings;

pub mod error;
mod parting;
pub mod sender;
mod sending;
pub mod settings;
mod settling;
