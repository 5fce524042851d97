//! What a session refuses (OASIS AMQP 1.0, part 2, sections 2.5 and 2.8.17).
ghost use Rattle.std.specs.Prelude.{◌≡◌, IfOk};
ghost use Rattle.amqp_session.specs.declared.error.Error.TheVariants.{Memory};
ghost use Rattle.amqp_session.specs.Faults.{condition_of, error_for, told_of};

use amqp_composites::error::Error as AmqpError;
use amqp_data::Symbol;
use amqp_frames::SessionStopReason;
use std::alloc::{AllocError, Global};
use thiserror::Error;

/// Why a session is not begun.
#[derive(Debug, Drop, Error)]
pub enum BeginError {
    /// There was not enough memory.
    #[error("Memory")]
    Memory(AllocError),
    /// The connection has stopped first.
    #[error("SessionStopped")]
    SessionStopped(SessionStopReason),
    /// Each channel is taken.
    #[error("LocalChannelMaxReached")]
    LocalChannelMaxReached,
    /// The peer has ended the session in place of beginning it.
    #[error("RemoteEnded")]
    RemoteEnded,
    /// The connection is not open here.
    #[error("IllegalState")]
    IllegalState,
}

impl From<AllocError> for BeginError {
    ghost use Rattle.amqp_session.specs.declared.error.BeginError.TheVariants.{Memory};

    ghost from_gives = { λ a e. e ≡ Memory a };

    fn from(error: AllocError) -> Self {
        BeginError::Memory(error)
    }
}

/// Why this end ends a session for a frame that it has read.
#[derive(Clone, Copy, Debug, PartialEq, Eq)]
pub enum Fault {
    /// A frame of a link on a handle that is not attached.
    UnattachedHandle,
    /// An Attach on a handle that is in use.
    HandleInUse,
    /// A Transfer on a link whose receiver the peer is.
    TransferFrameToSender,
    /// An Attach that attaches no link of this end, which takes none of the peer's.
    RemoteAttachingLinkNameNotFound,
}

/// Why a session refuses a frame or a call.
#[derive(Debug, Drop, Error)]
pub enum Error {
    /// There was not enough memory.
    #[error("Memory")]
    Memory(AllocError),
    /// A frame or a call out of order.
    #[error("IllegalState")]
    IllegalState,
    /// A frame of a link on a handle that is not attached.
    #[error("UnattachedHandle")]
    UnattachedHandle,
    /// An Attach on a handle that is in use.
    #[error("HandleInUse")]
    HandleInUse,
    /// A Transfer on a link whose receiver the peer is.
    #[error("TransferFrameToSender")]
    TransferFrameToSender,
    /// The peer has ended the session.
    #[error("RemoteEnded")]
    RemoteEnded,
    /// The peer has ended the session for that error.
    #[error("RemoteEndedWithError")]
    RemoteEndedWithError(AmqpError),
    /// An Attach that attaches no link of this end, which takes none of the peer's.
    #[error("RemoteAttachingLinkNameNotFound")]
    RemoteAttachingLinkNameNotFound,
    /// An Attach on a handle above the highest that this end has announced: the connection is to be closed with
    /// `amqp:connection:framing-error` (part 2, section 2.7.2).
    #[error("FramingError")]
    FramingError,
}

impl From<AllocError> for Error {
    ghost from_gives = { λ a e. e ≡ Memory a };

    fn from(error: AllocError) -> Self {
        Error::Memory(error)
    }
}

/// The symbol that the bytes spell, each of which is ASCII.
fn symbol(alloc: Global, bytes: &[u8]) -> Result<Symbol, AllocError>
    ensures { IfOk result (λ s. s ≡ bytes.now) }
{
    match Symbol::from_slice(alloc, bytes) {
        Ok(symbol) => Ok(symbol),
        Err(_) => Err(AllocError),
    }
}

impl Fault {
    /// The condition of the error that the peer is told.
    fn condition(self, alloc: Global) -> Result<Symbol, AllocError>
        ensures { IfOk result (λ s. s ≡ condition_of self) }
    {
        match self {
            Fault::UnattachedHandle => symbol(alloc, b"amqp:session:unattached-handle"),
            Fault::HandleInUse => symbol(alloc, b"amqp:session:handle-in-use"),
            Fault::TransferFrameToSender => symbol(alloc, b"amqp:not-allowed"),
            Fault::RemoteAttachingLinkNameNotFound => symbol(alloc, b"amqp:not-found"),
        }
    }

    /// The error that the peer is told.
    pub(crate) fn error(self, alloc: Global) -> Result<AmqpError, AllocError>
        ensures { IfOk result (λ e. e ≡ error_for self) }
    {
        let condition = self.condition(alloc)?;
        Ok(AmqpError {
            condition,
            description: None,
            info: None,
        })
    }

    /// What the end's own caller is told.
    pub(crate) fn told(self) -> Error
        ensures { result ≡ told_of self }
    {
        match self {
            Fault::UnattachedHandle => Error::UnattachedHandle,
            Fault::HandleInUse => Error::HandleInUse,
            Fault::TransferFrameToSender => Error::TransferFrameToSender,
            Fault::RemoteAttachingLinkNameNotFound => Error::RemoteAttachingLinkNameNotFound,
        }
    }
}
