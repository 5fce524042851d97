//! Messages and their bodies (OASIS AMQP 1.0, part 3, section 3.2).
ghost use Rattle.std.specs.Prelude.{◌≡◌};
ghost use Rattle.amqp_messages.specs.Message.{only_body};

use amqp_data::{Binary, Value, ValueList};
use amqp_fields::{AnnotationMap, TextMap};
use amqp_sections::header::Header;
use amqp_sections::properties::Properties;

/// One thing or more, in order.
#[derive(Debug, Drop)]
pub struct OneOrMore<T> {
    /// The first.
    pub first: T,
    /// The others.
    pub rest: Vec<T>,
}

/// The body of a message (sections 3.2.6 to 3.2.8).
#[derive(Debug, Drop)]
pub enum Body {
    /// One value.
    Value(Value),
    /// One section of bytes or more.
    Data(OneOrMore<Binary>),
    /// One section of values or more.
    Sequence(OneOrMore<ValueList>),
    /// No section.
    Empty,
}

/// A message with a body of the type `T`: where none is named, any body.
#[derive(Debug, Drop)]
pub struct Message<T = Body> {
    /// How it is to be carried (section 3.2.1).
    pub header: Option<Header>,
    /// What is said to the next node alone (section 3.2.2).
    pub delivery_annotations: Option<AnnotationMap>,
    /// What is said to the nodes on its way (section 3.2.3).
    pub message_annotations: Option<AnnotationMap>,
    /// What nobody changes on its way (section 3.2.4).
    pub properties: Option<Properties>,
    /// What the application says beside the body (section 3.2.5).
    pub application_properties: Option<TextMap>,
    /// What it is sent for.
    pub body: T,
    /// What is known once the whole message was made, such as hashes (section 3.2.9).
    pub footer: Option<AnnotationMap>,
}

impl<T> Message<T> {
    /// A message with that body and no other section.
    pub fn new(body: T) -> Self
        ensures { result ≡ only_body body }
    {
        Message {
            header: None,
            delivery_annotations: None,
            message_annotations: None,
            properties: None,
            application_properties: None,
            body,
            footer: None,
        }
    }
}
