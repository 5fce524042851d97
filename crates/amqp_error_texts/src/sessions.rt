//! Errors of sessions in the text of a trace: the variants from outside inwards, joined by points, and the fields of the innermost one.
ghost use Rattle.std.specs.Prelude.{◌≡◌, ◌++◌, OnOk};
ghost use Rattle.amqp_error_texts.specs.SessionText.{with_text, connection_reason_text, session_reason_text, begin_text, session_text};

use amqp_composites::error::Error as AmqpError;
use amqp_frames::{ConnectionStopReason, SessionStopReason};
use amqp_script::trace_text::fault::push_fault;
use amqp_script::trace_text::hex::push_word;
use amqp_session::{BeginError, Error as SessionError};
use std::alloc::{AllocError, Global};

/// Adds a variant that has an error of AMQP in it.
pub(crate) fn push_with(
    alloc: Global,
    out: &mut Vec<u8>,
    name: &[u8],
    error: &AmqpError,
) -> Result<(), AllocError>
    ensures { OnOk result (out.new.items ≡ out.old.items ++ with_text name.now error.now) }
{
    out.extend_from_slice(name)?;
    out.push(b' ')?;
    push_fault(alloc, out, error)?;
    Ok(())
}

fn push_connection_reason(
    alloc: Global,
    out: &mut Vec<u8>,
    reason: &ConnectionStopReason,
) -> Result<(), AllocError>
    ensures { OnOk result (out.new.items ≡ out.old.items ++ connection_reason_text reason.now) }
{
    match reason {
        ConnectionStopReason::Closed => push_word(out, b"Closed"),
        ConnectionStopReason::ClosedWithError(error) => {
            push_with(alloc, out, b"ClosedWithError", error)
        }
        ConnectionStopReason::RemoteClosed => push_word(out, b"RemoteClosed"),
        ConnectionStopReason::RemoteClosedWithError(error) => {
            push_with(alloc, out, b"RemoteClosedWithError", error)
        }
    }
}

/// Adds why a session has stopped.
pub fn push_session_reason(
    alloc: Global,
    out: &mut Vec<u8>,
    reason: &SessionStopReason,
) -> Result<(), AllocError>
    ensures { OnOk result (out.new.items ≡ out.old.items ++ session_reason_text reason.now) }
{
    match reason {
        SessionStopReason::Ended => push_word(out, b"Ended"),
        SessionStopReason::EndedWithError(error) => push_with(alloc, out, b"EndedWithError", error),
        SessionStopReason::RemoteEnded => push_word(out, b"RemoteEnded"),
        SessionStopReason::RemoteEndedWithError(error) => {
            push_with(alloc, out, b"RemoteEndedWithError", error)
        }
        SessionStopReason::ConnectionStopped(reason) => {
            out.extend_from_slice(b"ConnectionStopped.")?;
            push_connection_reason(alloc, out, reason)
        }
    }
}

/// Adds why a session is not begun.
pub fn push_begin(alloc: Global, out: &mut Vec<u8>, error: &BeginError) -> Result<(), AllocError>
    ensures { OnOk result (out.new.items ≡ out.old.items ++ begin_text error.now) }
{
    out.extend_from_slice(b"Begin.")?;
    match error {
        BeginError::Memory(_) => push_word(out, b"Memory"),
        BeginError::SessionStopped(reason) => {
            out.extend_from_slice(b"SessionStopped.")?;
            push_session_reason(alloc, out, reason)
        }
        BeginError::LocalChannelMaxReached => push_word(out, b"LocalChannelMaxReached"),
        BeginError::RemoteEnded => push_word(out, b"RemoteEnded"),
        BeginError::IllegalState => push_word(out, b"IllegalState"),
    }
}

/// Adds why a call on a session does not do what it was asked.
pub fn push_session(
    alloc: Global,
    out: &mut Vec<u8>,
    error: &SessionError,
) -> Result<(), AllocError>
    ensures { OnOk result (out.new.items ≡ out.old.items ++ session_text error.now) }
{
    out.extend_from_slice(b"Session.")?;
    match error {
        SessionError::Memory(_) => push_word(out, b"Memory"),
        SessionError::IllegalState => push_word(out, b"IllegalState"),
        SessionError::UnattachedHandle => push_word(out, b"UnattachedHandle"),
        SessionError::HandleInUse => push_word(out, b"HandleInUse"),
        SessionError::TransferFrameToSender => push_word(out, b"TransferFrameToSender"),
        SessionError::RemoteEnded => push_word(out, b"RemoteEnded"),
        SessionError::RemoteEndedWithError(error) => {
            push_with(alloc, out, b"RemoteEndedWithError", error)
        }
        SessionError::RemoteAttachingLinkNameNotFound => {
            push_word(out, b"RemoteAttachingLinkNameNotFound")
        }
        SessionError::FramingError => push_word(out, b"FramingError"),
    }
}
