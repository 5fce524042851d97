//! Messages (OASIS AMQP 1.0, part 3, section 3.2).
ghost use Rattle.std.specs.Prelude.{◌≡◌, ◌++◌, ◌∷◌, [], OnOk, Option, flat_map};
ghost use Rattle.amqp_data.specs.View.{view};
ghost use Rattle.amqp_messages.specs.Message.{said, seen};
ghost use Rattle.amqp_shown.specs.Values.{value_text};
ghost use Rattle.amqp_lines.specs.Bodies.{AreMade};
ghost use Rattle.amqp_lines.specs.Messages.{AddsSection, valued, header_section, properties_section, map_section, binary_section, list_section, delivery_section, message_section, application_section, data_section, sequence_section, value_section, footer_section, content_text, head_text, about_text, message_text};

use amqp_composites::kind::CompositeKind;
use amqp_data::{OrderedMap, Value, ValueList};
use amqp_fields::{AnnotationMap, BaseError, TextMap};
use amqp_messages::{Body, Message, OneOrMore};
use amqp_sections::header::Header;
use amqp_sections::properties::Properties;
use amqp_shown::bytes::{push_hex, push_word};
use amqp_shown::names::name;
use amqp_shown::value::{push_fields, push_items, push_pairs, push_value};
use amqp_text::Binary;
use std::alloc::{AllocError, Global};

/// Adds a section that is a list of the standard, whose fields are there unless memory was wanting.
fn push_composite(
    alloc: Global,
    out: &mut Vec<u8>,
    kind: CompositeKind,
    fields: Result<ValueList, BaseError>,
) -> Result<(), AllocError>
    requires { AreMade fields }
    ensures { OnOk result (AddsSection kind fields out.old.items out.new.items) }
{
    match fields {
        Ok(fields) => {
            push_word(out, " (")?;
            push_word(out, name(kind))?;
            push_fields(alloc, out, kind, fields.as_slice())?;
            push_word(out, ")")
        }
        Err(BaseError::Memory(error)) => Err(error),
        Err(BaseError::Decode | BaseError::Size) => unreachable!(),
    }
}

fn push_header(alloc: Global, out: &mut Vec<u8>, header: &Option<Header>) -> Result<(), AllocError>
    ensures { OnOk result (out.new.items ≡ out.old.items ++ header_section header.now) }
{
    match header {
        Some(x) => push_composite(alloc, out, CompositeKind::Header, x.to_list(alloc)),
        None => Ok(()),
    }
}

fn push_properties(
    alloc: Global,
    out: &mut Vec<u8>,
    properties: &Option<Properties>,
) -> Result<(), AllocError>
    ensures { OnOk result (out.new.items ≡ out.old.items ++ properties_section properties.now) }
{
    match properties {
        Some(x) => push_composite(alloc, out, CompositeKind::Properties, x.to_list(alloc)),
        None => Ok(()),
    }
}

/// Adds ` (NAME `.
fn push_front(out: &mut Vec<u8>, name: &str) -> Result<(), AllocError>
    ensures { OnOk result (out.new.items ≡ out.old.items ++ (32 ∷ 40 ∷ name.now ++ 32 ∷ [])) }
{
    push_word(out, " (")?;
    push_word(out, name)?;
    push_word(out, " ")
}

/// Adds a section that holds a map.
fn push_map(
    alloc: Global,
    out: &mut Vec<u8>,
    name: &str,
    map: &OrderedMap,
) -> Result<(), AllocError>
    ensures { OnOk result (out.new.items ≡ out.old.items ++ map_section name.now (Some map.now)) }
{
    push_front(out, name)?;
    push_pairs(alloc, out, map.entries())?;
    push_word(out, ")")
}

fn push_annotations(
    alloc: Global,
    out: &mut Vec<u8>,
    name: &str,
    map: &Option<AnnotationMap>,
) -> Result<(), AllocError>
    ensures { OnOk result (out.new.items ≡ out.old.items ++ map_section name.now map.now) }
{
    match map {
        Some(map) => push_map(alloc, out, name, map.as_map()),
        None => Ok(()),
    }
}

fn push_texts(
    alloc: Global,
    out: &mut Vec<u8>,
    name: &str,
    map: &Option<TextMap>,
) -> Result<(), AllocError>
    ensures { OnOk result (out.new.items ≡ out.old.items ++ map_section name.now map.now) }
{
    match map {
        Some(map) => push_map(alloc, out, name, map.as_map()),
        None => Ok(()),
    }
}

#[tactic(auto, unfolding(crate::specs::Messages::delivery_section))]
fn push_delivery_annotations(
    alloc: Global,
    out: &mut Vec<u8>,
    map: &Option<AnnotationMap>,
) -> Result<(), AllocError>
    ensures { OnOk result (out.new.items ≡ out.old.items ++ delivery_section map.now) }
{
    push_annotations(alloc, out, "delivery-annotations", map)
}

#[tactic(auto, unfolding(crate::specs::Messages::message_section))]
fn push_message_annotations(
    alloc: Global,
    out: &mut Vec<u8>,
    map: &Option<AnnotationMap>,
) -> Result<(), AllocError>
    ensures { OnOk result (out.new.items ≡ out.old.items ++ message_section map.now) }
{
    push_annotations(alloc, out, "message-annotations", map)
}

#[tactic(auto, unfolding(crate::specs::Messages::application_section))]
fn push_application_properties(
    alloc: Global,
    out: &mut Vec<u8>,
    map: &Option<TextMap>,
) -> Result<(), AllocError>
    ensures { OnOk result (out.new.items ≡ out.old.items ++ application_section map.now) }
{
    push_texts(alloc, out, "application-properties", map)
}

#[tactic(auto, unfolding(crate::specs::Messages::footer_section))]
fn push_footer(
    alloc: Global,
    out: &mut Vec<u8>,
    map: &Option<AnnotationMap>,
) -> Result<(), AllocError>
    ensures { OnOk result (out.new.items ≡ out.old.items ++ footer_section map.now) }
{
    push_annotations(alloc, out, "footer", map)
}

/// Adds a section that holds bytes.
fn push_binary(out: &mut Vec<u8>, name: &str, bytes: &[u8]) -> Result<(), AllocError>
    ensures { OnOk result (out.new.items ≡ out.old.items ++ binary_section name.now bytes.now) }
{
    push_front(out, name)?;
    push_word(out, "0x")?;
    push_hex(out, bytes)?;
    push_word(out, ")")
}

#[tactic(auto, unfolding(crate::specs::Messages::data_section))]
fn push_data_section(out: &mut Vec<u8>, bytes: &[u8]) -> Result<(), AllocError>
    ensures { OnOk result (out.new.items ≡ out.old.items ++ data_section bytes.now) }
{
    push_binary(out, "data", bytes)
}

fn push_each_data(out: &mut Vec<u8>, sections: &[Binary]) -> Result<(), AllocError>
    ensures { OnOk result (out.new.items ≡ out.old.items ++ flat_map data_section sections.now) }
{
    for bytes in sections {
        push_data_section(out, bytes.as_slice())?;
    }
    Ok(())
}

/// Adds a section that holds a list.
fn push_list_section(
    alloc: Global,
    out: &mut Vec<u8>,
    name: &str,
    values: &ValueList,
) -> Result<(), AllocError>
    ensures { OnOk result (out.new.items ≡ out.old.items ++ list_section name.now values.now) }
{
    push_front(out, name)?;
    push_items(alloc, out, values.as_slice())?;
    push_word(out, ")")
}

#[tactic(auto, unfolding(crate::specs::Messages::sequence_section))]
fn push_sequence_section(
    alloc: Global,
    out: &mut Vec<u8>,
    values: &ValueList,
) -> Result<(), AllocError>
    ensures { OnOk result (out.new.items ≡ out.old.items ++ sequence_section values.now) }
{
    push_list_section(alloc, out, "amqp-sequence", values)
}

fn push_each_sequence(
    alloc: Global,
    out: &mut Vec<u8>,
    sections: &[ValueList],
) -> Result<(), AllocError>
    ensures { OnOk result (out.new.items ≡ out.old.items ++ flat_map sequence_section sections.now) }
{
    for values in sections {
        push_sequence_section(alloc, out, values)?;
    }
    Ok(())
}

/// Adds a section that holds a value.
fn push_named_value(
    alloc: Global,
    out: &mut Vec<u8>,
    name: &str,
    value: &Value,
) -> Result<(), AllocError>
    ensures { OnOk result (out.new.items ≡ out.old.items ++ valued name.now (value_text (view value.now))) }
{
    push_front(out, name)?;
    push_value(alloc, out, value)?;
    push_word(out, ")")
}

#[tactic(auto, unfolding(crate::specs::Messages::value_section))]
fn push_value_section(alloc: Global, out: &mut Vec<u8>, value: &Value) -> Result<(), AllocError>
    ensures { OnOk result (out.new.items ≡ out.old.items ++ value_section (view value.now)) }
{
    push_named_value(alloc, out, "amqp-value", value)
}

fn push_data_sections(out: &mut Vec<u8>, sections: &OneOrMore<Binary>) -> Result<(), AllocError>
    ensures { let said = data_section sections.now.first ++ flat_map data_section sections.now.rest.items in
        OnOk result (out.new.items ≡ out.old.items ++ said) }
{
    push_data_section(out, sections.first.as_slice())?;
    push_each_data(out, sections.rest.as_slice())
}

fn push_sequence_sections(
    alloc: Global,
    out: &mut Vec<u8>,
    sections: &OneOrMore<ValueList>,
) -> Result<(), AllocError>
    ensures { let said = sequence_section sections.now.first ++ flat_map sequence_section sections.now.rest.items in
        OnOk result (out.new.items ≡ out.old.items ++ said) }
{
    push_sequence_section(alloc, out, &sections.first)?;
    push_each_sequence(alloc, out, sections.rest.as_slice())
}

fn push_content(alloc: Global, out: &mut Vec<u8>, body: &Body) -> Result<(), AllocError>
    ensures { OnOk result (out.new.items ≡ out.old.items ++ content_text (said body.now)) }
{
    match body {
        Body::Value(value) => push_value_section(alloc, out, value),
        Body::Data(sections) => push_data_sections(out, sections),
        Body::Sequence(sections) => push_sequence_sections(alloc, out, sections),
        Body::Empty => Ok(()),
    }
}

#[tactic(auto, unfolding(crate::specs::Messages::head_text))]
fn push_head(alloc: Global, out: &mut Vec<u8>, message: &Message) -> Result<(), AllocError>
    ensures { OnOk result (out.new.items ≡ out.old.items ++ head_text (seen message.now)) }
{
    push_header(alloc, out, &message.header)?;
    push_delivery_annotations(alloc, out, &message.delivery_annotations)?;
    push_message_annotations(alloc, out, &message.message_annotations)
}

#[tactic(auto, unfolding(crate::specs::Messages::about_text))]
fn push_about(alloc: Global, out: &mut Vec<u8>, message: &Message) -> Result<(), AllocError>
    ensures { OnOk result (out.new.items ≡ out.old.items ++ about_text (seen message.now)) }
{
    push_properties(alloc, out, &message.properties)?;
    push_application_properties(alloc, out, &message.application_properties)
}

/// Adds the sections of a message, in their order; the one error is want of memory, which may leave a part of the text.
pub(crate) fn push_message(
    alloc: Global,
    out: &mut Vec<u8>,
    message: &Message,
) -> Result<(), AllocError>
    ensures { OnOk result (out.new.items ≡ out.old.items ++ message_text (seen message.now)) }
{
    push_head(alloc, out, message)?;
    push_about(alloc, out, message)?;
    push_content(alloc, out, &message.body)?;
    push_footer(alloc, out, &message.footer)
}
