//! Copies of errors, and of reasons for a stop. The one error is want of memory.
ghost use Rattle.std.specs.Prelude.{◌≡◌, IfOk};

use amqp_composites::error::Error;
use amqp_data::Text;
use amqp_fields::FieldMap;
use amqp_frames::{ConnectionStopReason, SessionStopReason};
use std::alloc::{AllocError, Global};

fn copied_text(alloc: Global, text: &Option<Text>) -> Result<Option<Text>, AllocError>
    ensures { IfOk result (λ t. t ≡ text.now) }
{
    match text {
        Some(text) => {
            let text = text.try_clone(alloc)?;
            Ok(Some(text))
        }
        None => Ok(None),
    }
}

/// A copy of the map, whose keys are symbols as the map's own are.
fn copied_fields(alloc: Global, fields: &FieldMap) -> Result<FieldMap, AllocError>
    ensures { IfOk result (λ m. m ≡ fields.now) }
{
    let map = fields.as_map().try_clone(alloc)?;
    match FieldMap::new(map) {
        Some(fields) => Ok(fields),
        None => Err(AllocError),
    }
}

fn copied_info(alloc: Global, info: &Option<FieldMap>) -> Result<Option<FieldMap>, AllocError>
    ensures { IfOk result (λ m. m ≡ info.now) }
{
    match info {
        Some(info) => {
            let info = copied_fields(alloc, info)?;
            Ok(Some(info))
        }
        None => Ok(None),
    }
}

/// A copy of the error; the one error is want of memory.
pub(crate) fn copied_error(alloc: Global, error: &Error) -> Result<Error, AllocError>
    ensures { IfOk result (λ e. e ≡ error.now) }
{
    let condition = error.condition.try_clone(alloc)?;
    let description = copied_text(alloc, &error.description)?;
    let info = copied_info(alloc, &error.info)?;
    Ok(Error {
        condition,
        description,
        info,
    })
}

fn copied_connection_reason(
    alloc: Global,
    reason: &ConnectionStopReason,
) -> Result<ConnectionStopReason, AllocError>
    ensures { IfOk result (λ r. r ≡ reason.now) }
{
    match reason {
        ConnectionStopReason::Closed => Ok(ConnectionStopReason::Closed),
        ConnectionStopReason::RemoteClosed => Ok(ConnectionStopReason::RemoteClosed),
        ConnectionStopReason::ClosedWithError(error) => {
            let error = copied_error(alloc, error)?;
            Ok(ConnectionStopReason::ClosedWithError(error))
        }
        ConnectionStopReason::RemoteClosedWithError(error) => {
            let error = copied_error(alloc, error)?;
            Ok(ConnectionStopReason::RemoteClosedWithError(error))
        }
    }
}

/// A copy of the reason.
pub(crate) fn copied_reason(
    alloc: Global,
    reason: &SessionStopReason,
) -> Result<SessionStopReason, AllocError>
    ensures { IfOk result (λ r. r ≡ reason.now) }
{
    match reason {
        SessionStopReason::Ended => Ok(SessionStopReason::Ended),
        SessionStopReason::RemoteEnded => Ok(SessionStopReason::RemoteEnded),
        SessionStopReason::EndedWithError(error) => {
            let error = copied_error(alloc, error)?;
            Ok(SessionStopReason::EndedWithError(error))
        }
        SessionStopReason::RemoteEndedWithError(error) => {
            let error = copied_error(alloc, error)?;
            Ok(SessionStopReason::RemoteEndedWithError(error))
        }
        SessionStopReason::ConnectionStopped(reason) => {
            let reason = copied_connection_reason(alloc, reason)?;
            Ok(SessionStopReason::ConnectionStopped(reason))
        }
    }
}
