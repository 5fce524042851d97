//! The text of a trace: that of connections, for links the answers of the crate `amqp_link_script`, and for sessions the answers
//! `session`, `ended`, and `error PATH FIELDS` with a PATH that begins with `Begin` or `Session`.
ghost use Rattle.std.specs.Prelude.{◌≡◌, ◌++◌, OnOk, IfOk, flat_map};
ghost use Rattle.amqp_session_script.specs.TraceText.{session_answer_text, any_answer_text, reply_text, entry_text, text_of};

use amqp_calls::{Entry, NamedReply, Reply, SessionReply, Trace};
use amqp_error_texts::sessions::{push_begin, push_session};
use amqp_link_script::answers::push_link_answer;
use amqp_script::trace_text::hex::push_word;
use amqp_script::trace_text::{push_answer, push_wrote};
use std::alloc::{AllocError, Global};

fn push_session_answer(
    alloc: Global,
    out: &mut Vec<u8>,
    reply: &SessionReply,
) -> Result<(), AllocError>
    ensures { OnOk result (out.new.items ≡ out.old.items ++ session_answer_text reply.now) }
{
    match reply {
        SessionReply::Pending => push_word(out, b"pending"),
        SessionReply::Session => push_word(out, b"session"),
        SessionReply::Ended => push_word(out, b"ended"),
        SessionReply::BeginError(error) => {
            out.extend_from_slice(b"error ")?;
            push_begin(alloc, out, error)
        }
        SessionReply::SessionError(error) => {
            out.extend_from_slice(b"error ")?;
            push_session(alloc, out, error)
        }
    }
}

fn push_any_answer(alloc: Global, out: &mut Vec<u8>, reply: &Reply) -> Result<(), AllocError>
    ensures { OnOk result (out.new.items ≡ out.old.items ++ any_answer_text reply.now) }
{
    match reply {
        Reply::Connection(reply) => push_answer(alloc, out, reply),
        Reply::Session(reply) => push_session_answer(alloc, out, reply),
        Reply::Link(reply) => push_link_answer(alloc, out, reply),
    }
}

fn push_reply(
    alloc: Global,
    out: &mut Vec<u8>,
    step: u64,
    reply: &NamedReply,
) -> Result<(), AllocError>
    ensures { OnOk result (out.new.items ≡ out.old.items ++ reply_text step reply.now) }
{
    let head = format!(in alloc; "{step} {} ", reply.name)?;
    out.extend_from_slice(head.as_bytes())?;
    push_any_answer(alloc, out, &reply.reply)?;
    out.push(b'\n')?;
    Ok(())
}

fn push_replies(
    alloc: Global,
    out: &mut Vec<u8>,
    step: u64,
    replies: &[NamedReply],
) -> Result<(), AllocError>
    ensures { OnOk result (out.new.items ≡ out.old.items ++ flat_map (reply_text step) replies.now) }
{
    for reply in replies {
        push_reply(alloc, out, step, reply)?;
    }
    Ok(())
}

fn push_entry(alloc: Global, out: &mut Vec<u8>, step: u64, entry: &Entry) -> Result<(), AllocError>
    ensures { OnOk result (out.new.items ≡ out.old.items ++ entry_text step entry.now) }
{
    push_replies(alloc, out, step, entry.replies.as_slice())?;
    push_wrote(alloc, out, step, entry.wrote.as_slice())?;
    Ok(())
}

/// The text of a trace; the one error is want of memory.
pub fn text(alloc: Global, trace: &Trace) -> Result<Vec<u8>, AllocError>
    ensures { IfOk result (λ text. text.items ≡ text_of trace.now.entries.items) }
{
    let mut out = Vec::new(alloc);
    let entries = trace.entries.as_slice();
    for (step, entry) in entries.iter().enumerate() {
        push_entry(alloc, &mut out, step as u64, entry)?;
    }
    Ok(out)
}
