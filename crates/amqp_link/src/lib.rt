//! What both ends of a link share: how it is attached and detached, why a call is refused, and what it writes (OASIS AMQP 1.0,
//! part 2, section 2.6).
#![tactic(auto)]

pub use amqp_frames;
pub use amqp_frames::amqp_performatives;
pub use copies::{copied, copied_optional, copied_reason};
pub use endpoint::{AttachPoll, DetachPoll, LinkEndpoint, LinkPhase};
pub use error::{
    AttachError, AttachFault, DetachError, DispositionError, FlowError, IllegalLinkStateError,
    LinkStateError, ReceiverAttachError, SenderAttachError,
};
pub use settings::AcceptSettings;
pub use termini::{link_flow, source_at, target_at};

mod accepting;
mod attaching;
pub mod copies;
mod detaching;
pub mod endpoint;
pub mod error;
mod parting;
mod reattaching;
mod rules;
pub mod settings;
pub mod termini;
