//! Writing a message as its bytes (OASIS AMQP 1.0, part 3, section 3.2).
ghost use Rattle.std.specs.Prelude.{◌≡◌, ◌∷◌, OnOk, IfOk};
ghost use Rattle.amqp_fields.specs.Fields.{IsValid, is_annotation, is_string};
ghost use Rattle.amqp_fields.specs.Again.{HasKeys};
ghost use Rattle.amqp_messages.specs.Message.{said, seen};
ghost use Rattle.amqp_messages.specs.Reading.{SpellsMessage};
ghost use Rattle.amqp_messages.specs.Writing.{present, each, head_items, about_items, body_items, rest_items, message_items, AddsAll, Encodes, IsMessageValid};

use crate::content::Content;
use crate::kind::SectionKind;
use crate::message::{Body, Message, OneOrMore};
use amqp_data::Binary;
use amqp_described::write_described_value;
use amqp_fields::BaseError;
use std::alloc::Global;

/// The room for all but the data of a message.
const FEW_BYTES: usize = 512;

fn put_optional<T: Content>(
    alloc: Global,
    out: &mut Binary,
    kind: SectionKind,
    section: &Option<T>,
) -> Result<(), BaseError>
    ensures adds { AddsAll result out.old out.new (present kind T.writes section.now) }
    ensures valid { OnOk result (IsValid T.valid section.now) }
{
    match section {
        None => Ok(()),
        Some(content) => content.write(alloc, out, kind.number()),
    }
}

fn put_each<T: Content>(
    alloc: Global,
    out: &mut Binary,
    kind: SectionKind,
    sections: &[T],
) -> Result<(), BaseError>
    ensures { AddsAll result out.old out.new (each kind T.writes sections.now) }
{
    for content in sections {
        content.write(alloc, out, kind.number())?;
    }
    Ok(())
}

fn put_sections<T: Content>(
    alloc: Global,
    out: &mut Binary,
    kind: SectionKind,
    sections: &OneOrMore<T>,
) -> Result<(), BaseError>
    ensures { AddsAll result out.old out.new (each kind T.writes (sections.now.first ∷ sections.now.rest.items)) }
{
    sections.first.write(alloc, out, kind.number())?;
    put_each(alloc, out, kind, &sections.rest)
}

fn put_head(alloc: Global, out: &mut Binary, message: &Message) -> Result<(), BaseError>
    ensures adds { AddsAll result out.old out.new (head_items message.now) }
    ensures delivery { OnOk result (IsValid (HasKeys is_annotation) message.now.delivery_annotations) }
    ensures message { OnOk result (IsValid (HasKeys is_annotation) message.now.message_annotations) }
{
    put_optional(alloc, out, SectionKind::Header, &message.header)?;
    put_optional(
        alloc,
        out,
        SectionKind::DeliveryAnnotations,
        &message.delivery_annotations,
    )?;
    put_optional(
        alloc,
        out,
        SectionKind::MessageAnnotations,
        &message.message_annotations,
    )
}

fn put_about(alloc: Global, out: &mut Binary, message: &Message) -> Result<(), BaseError>
    ensures adds { AddsAll result out.old out.new (about_items message.now) }
    ensures application { OnOk result (IsValid (HasKeys is_string) message.now.application_properties) }
{
    put_optional(alloc, out, SectionKind::Properties, &message.properties)?;
    put_optional(
        alloc,
        out,
        SectionKind::ApplicationProperties,
        &message.application_properties,
    )
}

fn put_body(alloc: Global, out: &mut Binary, body: &Body) -> Result<(), BaseError>
    ensures { AddsAll result out.old out.new (body_items (said body.now)) }
{
    match body {
        Body::Value(value) => write_described_value(out, SectionKind::Value.number(), value),
        Body::Data(sections) => put_sections(alloc, out, SectionKind::Data, sections),
        Body::Sequence(sections) => put_sections(alloc, out, SectionKind::Sequence, sections),
        Body::Empty => Ok(()),
    }
}

fn put_rest(alloc: Global, out: &mut Binary, message: &Message) -> Result<(), BaseError>
    ensures adds { AddsAll result out.old out.new (rest_items (seen message.now)) }
    ensures footer { OnOk result (IsValid (HasKeys is_annotation) message.now.footer) }
{
    put_body(alloc, out, &message.body)?;
    put_optional(alloc, out, SectionKind::Footer, &message.footer)
}

fn put_message(alloc: Global, out: &mut Binary, message: &Message) -> Result<(), BaseError>
    ensures adds { AddsAll result out.old out.new (message_items (seen message.now)) }
    ensures valid { OnOk result (IsMessageValid (seen message.now)) }
{
    put_head(alloc, out, message)?;
    put_about(alloc, out, message)?;
    put_rest(alloc, out, message)?;
    Ok(())
}

/// How much room is taken at once: enough for most messages, so that the bytes seldom move.
fn first_room(body: &Body) -> usize {
    match body {
        Body::Data(sections) => sections.first.len().saturating_add(FEW_BYTES),
        Body::Value(_) | Body::Sequence(_) | Body::Empty => FEW_BYTES,
    }
}

/// The one spelling of the message that is written, each section that it has in its place: `Size` exactly where what a section
/// holds is nested more than 32 deep or a length needs more than 32 bits.
pub fn encode_message(alloc: Global, message: &Message) -> Result<Binary, BaseError>
    ensures bytes { Encodes result (message_items (seen message.now)) }
    ensures spelled { IfOk result (λ bytes. SpellsMessage bytes (seen message.now)) }
{
    let mut out = Binary::with_capacity(alloc, first_room(&message.body))?;
    put_message(alloc, &mut out, message)?;
    Ok(out)
}
