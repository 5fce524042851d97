//! Why a message is not sent, or has no outcome (OASIS AMQP 1.0, part 2, sections 2.6.12 and 2.7.3).
ghost use Rattle.std.specs.Prelude.{◌≡◌};

use amqp_link::{DetachError, LinkStateError};
use std::alloc::AllocError;
use thiserror::Error;

/// Why a message is not sent, or has no outcome.
#[derive(Debug, Drop, Error)]
pub enum SendError {
    /// There was not enough memory.
    #[error("Memory")]
    Memory(AllocError),
    /// The link takes no message, or tells no outcome.
    #[error("LinkStateError")]
    LinkStateError(LinkStateError),
    /// This end has detached the link, and the peer has not answered.
    #[error("Detached")]
    Detached(DetachError),
    /// The delivery was settled without a state in which a delivery ends.
    #[error("NonTerminalDeliveryState")]
    NonTerminalDeliveryState,
    /// The delivery was settled with the state of a transaction.
    #[error("IllegalDeliveryState")]
    IllegalDeliveryState,
    /// The message is larger than the link takes, in bytes.
    #[error("MessageSizeExceeded")]
    MessageSizeExceeded {
        /// The size of the message.
        size: u64,
        /// The largest message.
        max_size: u64,
    },
    /// The message has no bytes, as a length in it needs more than 32 bits or a value is nested too deep.
    #[error("MessageEncodeError")]
    MessageEncodeError,
}

impl From<AllocError> for SendError {
    ghost use Rattle.amqp_sender.specs.declared.error.SendError.TheVariants.{Memory};

    ghost from_gives = { λ a e. e ≡ Memory a };

    fn from(error: AllocError) -> Self {
        SendError::Memory(error)
    }
}
