//! What frames hold, in bytes (OASIS AMQP 1.0, part 2, section 2.3).
#![tactic(auto)]

pub use amqp_performatives;
pub use amqp_performatives::amqp_termini;
pub use body::{FRAME_TYPE_AMQP, FrameBody, let_go};
pub use reading::decode_body;
pub use shared::{
    AllocLinkError, ConnectionState, ConnectionStopReason, CoveredDelivery, IncomingSession,
    LinkFrame, SessionFrame, SessionStopReason,
};
pub use writing::encode_body;

pub mod body;
pub mod reading;
pub mod shared;
pub mod writing;
