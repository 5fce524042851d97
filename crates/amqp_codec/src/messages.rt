//! Sections of messages that say nothing, and messages that are a text or bytes (OASIS AMQP 1.0, part 3, section 3.2).
ghost use Rattle.std.specs.Prelude.{◌≡◌, [], IfOk};
ghost use Rattle.amqp_data.specs.Data.{scalar, string};
ghost use Rattle.amqp_messages.specs.Message.{seen, only_body, one_value, all_data};
ghost use Rattle.amqp_codec.specs.Defaults.{default_header, default_properties};

use crate::values::text_value;
use amqp_messages::{Body, Message, OneOrMore};
use amqp_sections::{Header, Properties};
use amqp_text::Binary;
use std::alloc::{AllocError, Global};

/// A header of which no field is given: not durable, priority 4, no time to live (section 3.2.1).
pub fn no_header() -> Header
    ensures { result ≡ default_header }
{
    Header {
        durable: false,
        priority: 4,
        ttl: None,
        first_acquirer: false,
        delivery_count: 0,
    }
}

/// Properties of which none is given (section 3.2.4): to be filled in by `..no_properties()`.
pub fn no_properties() -> Properties
    ensures { result ≡ default_properties }
{
    Properties {
        message_id: None,
        user_id: None,
        to: None,
        subject: None,
        reply_to: None,
        correlation_id: None,
        content_type: None,
        content_encoding: None,
        absolute_expiry_time: None,
        creation_time: None,
        group_id: None,
        group_sequence: None,
        reply_to_group_id: None,
    }
}

/// The message whose body is that text as its one value, with no other section (section 3.2.8). The one error is want of memory.
pub fn message_of_text(alloc: Global, text: &str) -> Result<Message, AllocError>
    ensures { IfOk result (λ m. seen m ≡ only_body (one_value (scalar (string text.now)))) }
{
    let value = text_value(alloc, text)?;
    Ok(Message::new(Body::Value(value)))
}

/// The message whose body is those bytes as its one section of data, with no other section (section 3.2.6). The one error is want of
/// memory.
pub fn message_of_bytes(alloc: Global, bytes: &[u8]) -> Result<Message, AllocError>
    ensures { IfOk result (λ m. seen m ≡ only_body (all_data bytes.now [])) }
{
    let first = Binary::from_slice(alloc, bytes)?;
    let rest = Vec::new(alloc);
    Ok(Message::new(Body::Data(OneOrMore { first, rest })))
}
