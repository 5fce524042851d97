//! Copies of reasons. The one error is want of memory.
ghost use Rattle.std.specs.Prelude.{◌≡◌, IfOk};

use amqp_calls::amqp_words::copies::copied_error;
use amqp_frames::ConnectionStopReason;
use std::alloc::{AllocError, Global};

/// A copy of the reason for which a connection has stopped.
pub(crate) fn copied_reason(
    alloc: Global,
    reason: &ConnectionStopReason,
) -> Result<ConnectionStopReason, AllocError>
    ensures { IfOk result (λ r. r ≡ reason.now) }
{
    match reason {
        ConnectionStopReason::Closed => Ok(ConnectionStopReason::Closed),
        ConnectionStopReason::RemoteClosed => Ok(ConnectionStopReason::RemoteClosed),
        ConnectionStopReason::ClosedWithError(error) => {
            let error = copied_error(alloc, error)?;
            Ok(ConnectionStopReason::ClosedWithError(error))
        }
        ConnectionStopReason::RemoteClosedWithError(error) => {
            let error = copied_error(alloc, error)?;
            Ok(ConnectionStopReason::RemoteClosedWithError(error))
        }
    }
}
