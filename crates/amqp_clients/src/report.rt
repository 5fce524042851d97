//! What is said of a failure on standard error.
ghost use Rattle.std.specs.Prelude.{◌≡◌, ◌++◌, OnOk, option_map};
ghost use Rattle.amqp_peer.specs.Held.{reason_of};
ghost use Rattle.amqp_clients.specs.Report.{session_reply_text, any_reply_text, closing_error};

use amqp_calls::{Reply, SessionReply};
use amqp_composites::error::Error as AmqpError;
use amqp_end::End;
use amqp_error_texts::sessions::{push_begin, push_session};
use amqp_frames::ConnectionStopReason;
use amqp_link_script::answers::push_link_answer;
use amqp_net::WaitLink;
use amqp_script::trace_text::fault::push_fault;
use amqp_script::trace_text::push_answer;
use amqp_serve::Failure;
use std::alloc::{AllocError, Global};

fn push_session_answer(
    alloc: Global,
    out: &mut Vec<u8>,
    reply: &SessionReply,
) -> Result<(), AllocError>
    ensures { OnOk result (out.new.items ≡ out.old.items ++ session_reply_text reply.now) }
{
    match reply {
        SessionReply::Pending | SessionReply::Session | SessionReply::Ended => Ok(()),
        SessionReply::BeginError(error) => {
            out.extend_from_slice(b"error ")?;
            push_begin(alloc, out, error)
        }
        SessionReply::SessionError(error) => {
            out.extend_from_slice(b"error ")?;
            push_session(alloc, out, error)
        }
    }
}

/// Adds the text of an answer, as a trace has it.
pub fn push_reply(alloc: Global, out: &mut Vec<u8>, reply: &Reply) -> Result<(), AllocError>
    ensures { OnOk result (out.new.items ≡ out.old.items ++ any_reply_text reply.now) }
{
    match reply {
        Reply::Connection(reply) => push_answer(alloc, out, reply),
        Reply::Session(reply) => push_session_answer(alloc, out, reply),
        Reply::Link(reply) => push_link_answer(alloc, out, reply),
    }
}

/// Writes a line on standard error: what was asked, and what the peer answered.
pub fn report<R: Eprint>(rt: &R, alloc: Global, what: &str, reply: &Reply) {
    let mut out = Vec::new(alloc);
    if push_reply(alloc, &mut out, reply).is_err() {
        return;
    }
    if let Ok(text) = std::str::from_utf8(out.as_slice()) {
        let _ = eprintln!(rt; "{what}: {text}");
    }
}

/// The error for which the peer has closed the connection, if it has.
fn closing_error<L: WaitLink>(end: &End<L>) -> Option<&AmqpError>
    ensures { option_map (λ e. e.now) result ≡ closing_error (reason_of end.now.connection.held) }
{
    match end.stop_reason() {
        Some(ConnectionStopReason::RemoteClosedWithError(error)) => Some(error),
        _ => None,
    }
}

/// Writes a line on standard error: the error for which the peer has closed the connection, or else the one by which it has answered.
pub fn report_failure<R: Eprint, L: WaitLink>(
    rt: &R,
    alloc: Global,
    end: &End<L>,
    what: &str,
    failure: &Failure,
) {
    if let Some(error) = closing_error(end) {
        let mut out = Vec::new(alloc);
        if push_fault(alloc, &mut out, error).is_err() {
            return;
        }
        if let Ok(text) = std::str::from_utf8(out.as_slice()) {
            let _ = eprintln!(rt; "{what}: error Connection.RemoteClosedWithError {text}");
        }
        return;
    }
    if let Failure::Answer(reply) = failure {
        report(rt, alloc, what, reply);
    }
}
