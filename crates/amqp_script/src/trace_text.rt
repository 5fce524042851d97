//! The text of a trace.
//!
//! For each step in order, first a line `STEP NAME REPLY` for each answer, then `STEP wrote HEX`
//! where bytes were written. STEP and NAME are decimal positions from 0, HEX is in lower case. An
//! answer is `pending`, `connection`, `closed`, or `error PATH FIELDS`: PATH is `Open` or
//! `Connection` and the variants of the error from outside inwards, joined by points, and FIELDS are
//! the innermost variant's: numbers in decimal, bytes as `x` and hexadecimal digits, `-` for what is
//! absent. The fields of `RemoteClosedWithError` are those of the error (OASIS AMQP 1.0, part 2,
//! section 2.8.14): the condition as it is, the bytes of the description, and the canonical bytes of
//! the map that is its info. In place of the map's bytes stands `deep` where it is nested more than
//! 32 deep, else `long` where a length needs more than 32 bits.
ghost use Rattle.std.specs.Prelude.{◌≡◌, ◌++◌, OnOk, IfOk, flat_map};
ghost use Rattle.amqp_script.specs.TraceText.{answer_text, reply_text, wrote_text, entry_text, text_of};

pub mod errors;
pub mod fault;
pub mod hex;

use crate::trace_text::errors::{push_connection, push_open};
use crate::trace_text::hex::{push_hex, push_word};
use amqp_words::{Entry, NamedReply, Reply, Trace};
use std::alloc::{AllocError, Global};

/// Adds an answer.
pub fn push_answer(alloc: Global, out: &mut Vec<u8>, reply: &Reply) -> Result<(), AllocError>
    ensures { OnOk result (out.new.items ≡ out.old.items ++ answer_text reply.now) }
{
    match reply {
        Reply::Pending => push_word(out, b"pending"),
        Reply::Connection => push_word(out, b"connection"),
        Reply::Closed => push_word(out, b"closed"),
        Reply::OpenError(error) => {
            out.extend_from_slice(b"error ")?;
            push_open(alloc, out, error)
        }
        Reply::ConnectionError(error) => {
            out.extend_from_slice(b"error ")?;
            push_connection(alloc, out, error)
        }
    }
}

fn push_reply(
    alloc: Global,
    out: &mut Vec<u8>,
    step: u64,
    reply: &NamedReply,
) -> Result<(), AllocError>
    ensures { OnOk result (out.new.items ≡ out.old.items ++ reply_text step reply.now) }
{
    let head = format!(in alloc; "{step} {} ", reply.name)?;
    out.extend_from_slice(head.as_bytes())?;
    push_answer(alloc, out, &reply.reply)?;
    out.push(b'\n')?;
    Ok(())
}

fn push_replies(
    alloc: Global,
    out: &mut Vec<u8>,
    step: u64,
    replies: &[NamedReply],
) -> Result<(), AllocError>
    ensures { OnOk result (out.new.items ≡ out.old.items ++ flat_map (reply_text step) replies.now) }
{
    for reply in replies {
        push_reply(alloc, out, step, reply)?;
    }
    Ok(())
}

/// Adds the bytes that a step wrote, if it wrote any.
pub fn push_wrote(
    alloc: Global,
    out: &mut Vec<u8>,
    step: u64,
    wrote: &[u8],
) -> Result<(), AllocError>
    ensures { OnOk result (out.new.items ≡ out.old.items ++ wrote_text step wrote.now) }
{
    if wrote.is_empty() {
        return Ok(());
    }
    let head = format!(in alloc; "{step} wrote ")?;
    out.extend_from_slice(head.as_bytes())?;
    push_hex(out, wrote)?;
    out.push(b'\n')?;
    Ok(())
}

fn push_entry(alloc: Global, out: &mut Vec<u8>, step: u64, entry: &Entry) -> Result<(), AllocError>
    ensures { OnOk result (out.new.items ≡ out.old.items ++ entry_text step entry.now) }
{
    push_replies(alloc, out, step, entry.replies.as_slice())?;
    push_wrote(alloc, out, step, entry.wrote.as_slice())?;
    Ok(())
}

/// The text of a trace; the one error is want of memory.
pub fn text(alloc: Global, trace: &Trace) -> Result<Vec<u8>, AllocError>
    ensures { IfOk result (λ text. text.items ≡ text_of trace.now.entries) }
{
    let mut out = Vec::new(alloc);
    let entries = trace.entries.as_slice();
    for (step, entry) in entries.iter().enumerate() {
        push_entry(alloc, &mut out, step as u64, entry)?;
    }
    Ok(out)
}
