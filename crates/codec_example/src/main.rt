//! The codec as a library: frames and a message are built from the standard's defaults and written, and the message is read again.
#![tactic(auto)]

use amqp_codec::{
    AsKind, Body, Condition, Detach, FrameBody, Message, MessageId, OrderedMap, Properties, Text,
    TextMap, decode_message, encode_body, encode_message, error_of, get_text, let_go,
    message_of_text, no_properties, performatives, read_whole_value, text_value,
};
use anyhow::Result;
use std::alloc::Global;

/// The bytes of a frame's body, in hexadecimal.
fn digits(alloc: Global, body: FrameBody) -> Result<String> {
    let bytes = encode_body(alloc, &body);
    let_go(body);
    Ok(hex::encode(alloc, bytes?.as_slice())?)
}

/// The Detach that closes a link whose node is not there.
fn refusal(alloc: Global) -> Result<Detach> {
    let mut detach = performatives::detach(0);
    detach.closed = true;
    detach.error = Some(error_of(alloc, Condition::NotFound)?);
    Ok(detach)
}

/// An order: its number, what it is, a property of the application, and a text.
fn order(alloc: Global) -> Result<Message> {
    let mut said = OrderedMap::new(alloc);
    said.insert(text_value(alloc, "colour")?, text_value(alloc, "blue")?)?;
    let mut message = message_of_text(alloc, "ten boxes")?;
    message.properties = Some(Properties {
        message_id: Some(MessageId::Ulong(7)),
        subject: Some(Text::from_str(alloc, "order")?),
        ..no_properties()
    });
    message.application_properties = TextMap::new(said);
    Ok(message)
}

/// The colour and the text of an order.
fn colour_and_text(order: &Message) -> Option<(&str, &str)> {
    let said = order.application_properties.as_ref()?;
    let colour = get_text(said.as_map(), "colour")?.as_str()?;
    match &order.body {
        Body::Value(value) => Some((colour, value.as_str()?)),
        _ => None,
    }
}

fn main(rt: HostRuntime) -> Result<()> {
    let open = performatives::open(Text::from_str(rt.alloc(), "shop")?);
    let open = digits(rt.alloc(), FrameBody::Open(open))?;
    println!(rt; "{open}")?;
    let detach = refusal(rt.alloc())?;
    let detach = digits(rt.alloc(), FrameBody::Detach(detach))?;
    println!(rt; "{detach}")?;
    let bytes = encode_message(rt.alloc(), &order(rt.alloc())?)?;
    let message = hex::encode(rt.alloc(), bytes.as_slice())?;
    println!(rt; "{message}")?;
    let message = decode_message(rt.alloc(), bytes.as_slice())?;
    if let Some((colour, text)) = colour_and_text(&message) {
        println!(rt; "{colour}: {text}")?;
    }
    if let Err(error) = read_whole_value(rt.alloc(), b"\x43\x44") {
        println!(rt; "{error}")?;
    }
    Ok(())
}
