//! The receiving end of a link (OASIS AMQP 1.0, part 2, section 2.6): credit given, messages joined from their parts, deliveries
//! settled.
#![tactic(auto)]

pub use amqp_messages;
pub use delivering::{Delivery, RecvReply};
pub use error::RecvError;
pub use receiver::{Incoming, Receiver};
pub use receiving::Received;
pub use settings::ReceiverSettings;

mod auto_accept;
mod crediting;
pub mod delivering;
mod disposing;
pub mod error;
mod parting;
pub mod receiver;
pub mod receiving;
mod regulating;
pub mod settings;
mod sharing;
mod taking;
