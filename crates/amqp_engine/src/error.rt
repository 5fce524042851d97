//! Why a call on a connection does not do what it was asked.
ghost use Rattle.std.specs.Prelude.{◌≡◌};
ghost use Rattle.amqp_engine.specs.Stops.{error_of_stop};

use crate::drops::discard;
use amqp_composites::error::Error as AmqpError;
use amqp_transport::amqp_frames::ConnectionStopReason;
use amqp_transport::transport;
use std::alloc::AllocError;
use thiserror::Error as ErrorDerive;

/// Why a call on a connection does not do what it was asked.
#[derive(Debug, Drop, ErrorDerive)]
pub enum Error {
    /// There was not enough memory.
    #[error("Memory")]
    Memory(AllocError),
    /// The transport failed, or a frame is too large for the peer.
    #[error("TransportError")]
    TransportError(transport::Error),
    /// A frame came out of order, on a channel that is too high or with a handle that is too high, or the connection is not open.
    #[error("IllegalState")]
    IllegalState,
    /// The peer began a session at an end that takes none.
    #[error("NotImplemented")]
    NotImplemented,
    /// A frame came on a channel that names no session.
    #[error("NotFound")]
    NotFound,
    /// The peer closed the connection.
    #[error("RemoteClosed")]
    RemoteClosed,
    /// The peer closed the connection for that error.
    #[error("RemoteClosedWithError")]
    RemoteClosedWithError(AmqpError),
}

impl From<transport::Error> for Error {
    ghost use Rattle.std.specs.Prelude.{◌≡◌};
    ghost use Rattle.amqp_engine.specs.Errors.{error_of};

    ghost from_gives = { λ e r. r ≡ error_of e };

    fn from(error: transport::Error) -> Self {
        match error {
            transport::Error::Memory(error) => Error::Memory(error),
            error => Error::TransportError(error),
        }
    }
}

impl From<AllocError> for Error {
    ghost use Rattle.std.specs.Prelude.{◌≡◌};
    ghost use Rattle.amqp_engine.specs.declared.error.Error.TheVariants.{Memory};

    ghost from_gives = { λ a e. e ≡ Memory a };

    fn from(error: AllocError) -> Self {
        Error::Memory(error)
    }
}

/// What a call is answered where the connection has stopped for that reason: none where this end closed it.
pub fn stop_error(reason: ConnectionStopReason) -> Option<Error>
    ensures { result ≡ error_of_stop reason }
{
    match reason {
        ConnectionStopReason::Closed => None,
        ConnectionStopReason::ClosedWithError(error) => {
            discard(error);
            None
        }
        ConnectionStopReason::RemoteClosed => Some(Error::RemoteClosed),
        ConnectionStopReason::RemoteClosedWithError(error) => {
            Some(Error::RemoteClosedWithError(error))
        }
    }
}

/// Why no session gets a channel.
#[derive(Clone, Copy, Debug, PartialEq, Eq, ErrorDerive)]
pub enum AllocSessionError {
    /// There was not enough memory.
    #[error("Memory")]
    Memory(AllocError),
    /// Each channel up to the highest has a session.
    #[error("ChannelMaxReached")]
    ChannelMaxReached,
}
