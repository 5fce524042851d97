//! Copies of what an end says of a link.
ghost use Rattle.std.specs.Prelude.{◌≡◌, IfOk};

use amqp_fields::Field;
use amqp_frames::amqp_performatives::attach::Attach;
use amqp_frames::{ConnectionStopReason, SessionStopReason};
use std::alloc::{AllocError, Global};

/// A copy; the one error is want of memory.
pub fn copied<T: Field + Drop>(alloc: Global, field: &T) -> Result<T, AllocError>
    ensures { IfOk result (λ copy. copy ≡ field.now) }
{
    match field.to_value(alloc) {
        Ok(value) => match T::from_value(alloc, value) {
            Ok(copy) => Ok(copy),
            Err(_) => Err(AllocError),
        },
        Err(_) => Err(AllocError),
    }
}

/// A copy of what there is; the one error is want of memory.
pub fn copied_optional<T: Field + Drop>(
    alloc: Global,
    field: &Option<T>,
) -> Result<Option<T>, AllocError>
    ensures { IfOk result (λ copy. copy ≡ field.now) }
{
    match field {
        Some(field) => {
            let copy = copied(alloc, field)?;
            Ok(Some(copy))
        }
        None => Ok(None),
    }
}

/// A copy of an Attach; the one error is want of memory.
pub(crate) fn copied_attach(alloc: Global, attach: &Attach) -> Result<Attach, AllocError>
    ensures { IfOk result (λ copy. copy ≡ attach.now) }
{
    let name = attach.name.try_clone(alloc)?;
    let source = copied_optional(alloc, &attach.source)?;
    let target = copied_optional(alloc, &attach.target)?;
    let unsettled = copied_optional(alloc, &attach.unsettled)?;
    let offered_capabilities = copied_optional(alloc, &attach.offered_capabilities)?;
    let desired_capabilities = copied_optional(alloc, &attach.desired_capabilities)?;
    let properties = copied_optional(alloc, &attach.properties)?;
    Ok(Attach {
        name,
        handle: attach.handle,
        role: attach.role,
        snd_settle_mode: attach.snd_settle_mode,
        rcv_settle_mode: attach.rcv_settle_mode,
        source,
        target,
        unsettled,
        incomplete_unsettled: attach.incomplete_unsettled,
        initial_delivery_count: attach.initial_delivery_count,
        max_message_size: attach.max_message_size,
        offered_capabilities,
        desired_capabilities,
        properties,
    })
}

fn copied_connection_reason(
    alloc: Global,
    reason: &ConnectionStopReason,
) -> Result<ConnectionStopReason, AllocError>
    ensures { IfOk result (λ copy. copy ≡ reason.now) }
{
    match reason {
        ConnectionStopReason::Closed => Ok(ConnectionStopReason::Closed),
        ConnectionStopReason::ClosedWithError(error) => {
            let error = copied(alloc, error)?;
            Ok(ConnectionStopReason::ClosedWithError(error))
        }
        ConnectionStopReason::RemoteClosed => Ok(ConnectionStopReason::RemoteClosed),
        ConnectionStopReason::RemoteClosedWithError(error) => {
            let error = copied(alloc, error)?;
            Ok(ConnectionStopReason::RemoteClosedWithError(error))
        }
    }
}

/// A copy of the reason of a stop; the one error is want of memory.
pub fn copied_reason(
    alloc: Global,
    reason: &SessionStopReason,
) -> Result<SessionStopReason, AllocError>
    ensures { IfOk result (λ copy. copy ≡ reason.now) }
{
    match reason {
        SessionStopReason::Ended => Ok(SessionStopReason::Ended),
        SessionStopReason::EndedWithError(error) => {
            let error = copied(alloc, error)?;
            Ok(SessionStopReason::EndedWithError(error))
        }
        SessionStopReason::RemoteEnded => Ok(SessionStopReason::RemoteEnded),
        SessionStopReason::RemoteEndedWithError(error) => {
            let error = copied(alloc, error)?;
            Ok(SessionStopReason::RemoteEndedWithError(error))
        }
        SessionStopReason::ConnectionStopped(reason) => {
            let reason = copied_connection_reason(alloc, reason)?;
            Ok(SessionStopReason::ConnectionStopped(reason))
        }
    }
}
