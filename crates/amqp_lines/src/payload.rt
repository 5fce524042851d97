//! The payload of a Transfer (OASIS AMQP 1.0, part 2, section 2.7.5).
ghost use Rattle.std.specs.Prelude.{◌≡◌, ◌++◌, ◌<◌, OnOk, IsTrue, length};
ghost use Rattle.amqp_lines.specs.Payload.{is_standard, is_whole, size_text, PayloadSays, AddsSome};

use crate::messages::push_message;
use amqp_fields::BaseError;
use amqp_messages::{Message, decode_message};
use amqp_performatives::transfer::Transfer;
use amqp_shown::bytes::push_word;
use amqp_shown::value::push_number;
use std::alloc::{AllocError, Global};

/// Whether the format is that of the standard's messages.
fn is_standard(format: Option<u32>) -> bool
    ensures { result ≡ is_standard format }
{
    match format {
        None => true,
        Some(format) => format == 0,
    }
}

/// Whether a Transfer has a message by itself.
fn is_whole(transfer: &Transfer) -> bool
    ensures { result ≡ is_whole transfer.now }
{
    transfer.delivery_tag.is_some()
        && !transfer.more
        && !transfer.resume
        && !transfer.aborted
        && is_standard(transfer.message_format)
}

/// Adds how long a payload is.
fn push_size(alloc: Global, out: &mut Vec<u8>, payload: &[u8]) -> Result<(), AllocError>
    ensures { OnOk result (out.new.items ≡ out.old.items ++ size_text payload.now) }
{
    push_word(out, " payload=")?;
    push_number(alloc, out, payload.len() as u64)?;
    push_word(out, " bytes")
}

/// Lets a message go.
fn let_go(_message: Message) {}

/// Adds the sections of a message where the payload spells one, else how long it is.
fn push_sections(
    alloc: Global,
    out: &mut Vec<u8>,
    transfer: &Transfer,
    payload: &[u8],
) -> Result<(), AllocError>
    requires some { 0 < length payload.now }
    requires whole { IsTrue (is_whole transfer.now) }
    ensures { OnOk result (AddsSome (PayloadSays transfer.now payload.now) out.old.items out.new.items) }
{
    match decode_message(alloc, payload) {
        Ok(message) => {
            let told = push_message(alloc, out, &message);
            let_go(message);
            told?;
            Ok(())
        }
        Err(BaseError::Memory(error)) => Err(error),
        Err(BaseError::Decode) => {
            push_size(alloc, out, payload)?;
            Ok(())
        }
        Err(BaseError::Size) => unreachable!(),
    }
}

/// Adds what a payload says: the sections of a whole message, of any other how many bytes it has, and nothing of an empty one.
pub(crate) fn push_payload(
    alloc: Global,
    out: &mut Vec<u8>,
    transfer: &Transfer,
    payload: &[u8],
) -> Result<(), AllocError>
    ensures { OnOk result (AddsSome (PayloadSays transfer.now payload.now) out.old.items out.new.items) }
{
    if payload.is_empty() {
        return Ok(());
    }
    if is_whole(transfer) {
        return push_sections(alloc, out, transfer, payload);
    }
    push_size(alloc, out, payload)?;
    Ok(())
}
