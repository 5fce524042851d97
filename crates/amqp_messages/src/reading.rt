//! Reading a message from its bytes (OASIS AMQP 1.0, part 3, section 3.2).
ghost use Rattle.std.specs.Prelude.{◌≡◌};
ghost use Rattle.amqp_messages.specs.Sections.{left, Takes};
ghost use Rattle.amqp_messages.specs.Reading.{head_in, about_in, rest_in, message_in, GivesRest, GivesSeen, IsTheMessage, SpellsMessage};

use crate::kind::SectionKind;
use crate::message::{Body, Message};
use crate::sections::Sections;
use amqp_described::read_whole;
use amqp_fields::{AnnotationMap, BaseError, TextMap};
use amqp_sections::header::Header;
use amqp_sections::properties::Properties;
use std::alloc::Global;

/// How deep a section may be nested: its value by itself 32 levels.
const SECTION_LEVELS: u8 = 33;

/// What is said to the nodes on the way of a message.
#[derive(Drop)]
struct Head {
    header: Option<Header>,
    delivery_annotations: Option<AnnotationMap>,
    message_annotations: Option<AnnotationMap>,
}

/// What is said of the body.
#[derive(Drop)]
struct About {
    properties: Option<Properties>,
    application_properties: Option<TextMap>,
}

/// The body and what follows it.
#[derive(Drop)]
struct Rest {
    body: Body,
    footer: Option<AnnotationMap>,
}

#[tactic(auto, unfolding(crate::specs::Reading::head_in))]
fn read_head(alloc: Global, sections: &mut Sections) -> Result<Head, BaseError>
    ensures { Takes (λ x. x) result (left sections.new) (head_in (left sections.old)) }
{
    let header = sections.optional(alloc, SectionKind::Header)?;
    let delivery_annotations = sections.optional(alloc, SectionKind::DeliveryAnnotations)?;
    let message_annotations = sections.optional(alloc, SectionKind::MessageAnnotations)?;
    Ok(Head {
        header,
        delivery_annotations,
        message_annotations,
    })
}

#[tactic(auto, unfolding(crate::specs::Reading::about_in))]
fn read_about(alloc: Global, sections: &mut Sections) -> Result<About, BaseError>
    ensures { Takes (λ x. x) result (left sections.new) (about_in (left sections.old)) }
{
    let properties = sections.optional(alloc, SectionKind::Properties)?;
    let application_properties = sections.optional(alloc, SectionKind::ApplicationProperties)?;
    Ok(About {
        properties,
        application_properties,
    })
}

#[tactic(auto, unfolding(crate::specs::Reading::rest_in))]
fn read_rest(alloc: Global, mut sections: Sections) -> Result<Rest, BaseError>
    ensures { GivesRest result (rest_in (left sections)) }
{
    let body = sections.body(alloc)?;
    let footer = sections.optional(alloc, SectionKind::Footer)?;
    sections.end()?;
    Ok(Rest { body, footer })
}

#[tactic(auto, unfolding(crate::specs::Reading::message_in))]
fn read_sections(alloc: Global, mut sections: Sections) -> Result<Message, BaseError>
    ensures { GivesSeen result (message_in (left sections)) }
{
    let head = read_head(alloc, &mut sections)?;
    let about = read_about(alloc, &mut sections)?;
    let rest = read_rest(alloc, sections)?;
    Ok(Message {
        header: head.header,
        delivery_annotations: head.delivery_annotations,
        message_annotations: head.message_annotations,
        properties: about.properties,
        application_properties: about.application_properties,
        body: rest.body,
        footer: rest.footer,
    })
}

/// The message that the whole input spells: `Decode` exactly where it spells none. Each section is in its place and comes at
/// most once, but for data and sequences, and nothing follows the last.
pub fn decode_message(alloc: Global, input: &[u8]) -> Result<Message, BaseError>
    ensures { IsTheMessage result (SpellsMessage input.now) }
{
    let values = read_whole(alloc, input, SECTION_LEVELS)?;
    read_sections(alloc, Sections::new(values))
}
