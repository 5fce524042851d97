//! The message that a line says, and how it is sent (OASIS AMQP 1.0, part 3, section 3.2).
ghost use Rattle.std.specs.Prelude.{◌≡◌, Ok, Err};
ghost use Rattle.amqp_messages.specs.Message.{said, seen};
ghost use Rattle.amqp_script.specs.Fields.{Says};
ghost use Rattle.amqp_link_script.specs.Messages.{Made, hex_in, form_of, form_in, IsTheMessageOf, has_body, IsCanonical, IsEncoded, IsSent, IsCall};

use amqp_data::Value;
use amqp_fields::BaseError;
use amqp_link_words::{LinkCall, Sendable};
use amqp_messages::{Body, Message, decode_message, encode_message};
use amqp_script::script::fields::text;
use amqp_script::script::line_error::LineError;
use amqp_script::script::words::{is_text, split_once};
use amqp_text::{Binary, Text};
use bytes::Bytes;
use hex::FromHexError;
use std::alloc::{AllocError, Global};

/// A message as it is written.
#[derive(Debug, Drop)]
pub enum Written {
    /// A message with one string.
    Text(Text),
    /// The bytes of a message.
    Spelled(Binary),
}

/// A message in its canonical bytes.
#[derive(Debug, Drop)]
struct Encoded {
    bytes: Bytes,
    has_body: bool,
}

/// The bytes of hexadecimal digits.
fn bytes_of(alloc: Global, digits: &[u8]) -> Result<Binary, LineError>
    ensures { Says (hex_in digits.now) result }
{
    match hex::decode(alloc, digits) {
        Ok(bytes) => Ok(Binary::from_vec(bytes)),
        Err(FromHexError::OutOfMemory) => Err(LineError::Memory(AllocError)),
        Err(_) => Err(LineError::Outside),
    }
}

fn form_of(alloc: Global, kind: &[u8], said: &[u8]) -> Result<Written, LineError>
    ensures { Says (form_of kind.now said.now) result }
{
    if is_text(kind, b"text") {
        let text = text(alloc, said)?;
        return Ok(Written::Text(text));
    }
    if is_text(kind, b"hex") {
        let bytes = bytes_of(alloc, said)?;
        return Ok(Written::Spelled(bytes));
    }
    Err(LineError::Outside)
}

/// The message as it is written.
fn form(alloc: Global, word: &[u8]) -> Result<Written, LineError>
    ensures { Says (form_in word.now) result }
{
    match split_once(word, b':') {
        Some((kind, said)) => form_of(alloc, kind, said),
        None => Err(LineError::Outside),
    }
}

/// The message that is written.
fn message(alloc: Global, form: Written) -> Result<Message, LineError>
    ensures { IsTheMessageOf form result }
{
    match form {
        Written::Text(text) => Ok(Message::new(Body::Value(Value::String(text)))),
        Written::Spelled(bytes) => match decode_message(alloc, bytes.as_slice()) {
            Ok(message) => Ok(message),
            Err(BaseError::Memory(error)) => Err(LineError::Memory(error)),
            Err(BaseError::Decode | BaseError::Size) => Err(LineError::Outside),
        },
    }
}

/// Whether a message has a body section.
fn has_body(body: &Body) -> bool
    ensures { result ≡ has_body (said body.now) }
{
    match body {
        Body::Value(_) | Body::Data(_) | Body::Sequence(_) => true,
        Body::Empty => false,
    }
}

/// The canonical bytes of a message.
fn canonical(alloc: Global, message: &Message) -> Result<Encoded, LineError>
    ensures { IsCanonical (seen message.now) result }
{
    match encode_message(alloc, message) {
        Ok(bytes) => {
            let bytes = bytes.into_bytes()?;
            Ok(Encoded {
                bytes,
                has_body: has_body(&message.body),
            })
        }
        Err(BaseError::Memory(error)) => Err(LineError::Memory(error)),
        Err(BaseError::Decode | BaseError::Size) => Err(LineError::Outside),
    }
}

/// The canonical bytes of the message that is written. What is no message, or has no canonical bytes, is outside the grammar.
#[tactic(auto, using(crate::proofs::Sent::encoded_of, crate::proofs::Sent::no_message))]
fn encoded_form(alloc: Global, form: Written) -> Result<Encoded, LineError>
    ensures { Made (IsEncoded form) result }
{
    match message(alloc, form) {
        Ok(message) => canonical(alloc, &message),
        Err(error) => Err(error),
    }
}

/// What is sent of a message as it is written: its canonical bytes.
#[tactic(auto, using(crate::proofs::Sent::no_form, crate::proofs::Sent::no_bytes))]
fn sent(alloc: Global, written: Sendable) -> Result<Sendable, LineError>
    ensures { Made (IsSent written) result }
{
    match form(alloc, written.payload.as_slice()) {
        Ok(form) => match encoded_form(alloc, form) {
            Ok(encoded) => Ok(Sendable {
                payload: encoded.bytes,
                has_body: encoded.has_body,
                settled: written.settled,
                batchable: written.batchable,
            }),
            Err(error) => Err(error),
        },
        Err(error) => Err(error),
    }
}

/// The call of a call in which a message stands as it is written.
#[tactic(auto, using(crate::proofs::Sent::no_call, crate::proofs::Sent::no_timed_call))]
pub fn with_message(alloc: Global, call: LinkCall) -> Result<LinkCall, LineError>
    ensures { Made (IsCall call) result }
{
    match call {
        LinkCall::Send { link, message } => match sent(alloc, message) {
            Ok(message) => Ok(LinkCall::Send { link, message }),
            Err(error) => Err(error),
        },
        LinkCall::SendTimed {
            link,
            message,
            timeout,
        } => match sent(alloc, message) {
            Ok(message) => Ok(LinkCall::SendTimed {
                link,
                message,
                timeout,
            }),
            Err(error) => Err(error),
        },
        other => Ok(other),
    }
}
