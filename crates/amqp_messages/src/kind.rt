//! The kinds of sections (OASIS AMQP 1.0, part 3, section 3.2).
ghost use Rattle.std.specs.Prelude.{◌≡◌};
ghost use Rattle.amqp_data.specs.View.{view};
ghost use Rattle.amqp_messages.specs.Kind.{number_of, name_of, is_descriptor};

use amqp_data::Value;

/// What a section of a message holds.
#[derive(Clone, Copy, Debug, PartialEq, Eq)]
pub enum SectionKind {
    /// `header` (section 3.2.1).
    Header,
    /// `delivery-annotations` (section 3.2.2).
    DeliveryAnnotations,
    /// `message-annotations` (section 3.2.3).
    MessageAnnotations,
    /// `properties` (section 3.2.4).
    Properties,
    /// `application-properties` (section 3.2.5).
    ApplicationProperties,
    /// `data` (section 3.2.6).
    Data,
    /// `amqp-sequence` (section 3.2.7).
    Sequence,
    /// `amqp-value` (section 3.2.8).
    Value,
    /// `footer` (section 3.2.9).
    Footer,
}

impl SectionKind {
    /// The number of the descriptor.
    pub fn number(self) -> u8
        ensures { result ≡ number_of self }
    {
        match self {
            SectionKind::Header => 0x70,
            SectionKind::DeliveryAnnotations => 0x71,
            SectionKind::MessageAnnotations => 0x72,
            SectionKind::Properties => 0x73,
            SectionKind::ApplicationProperties => 0x74,
            SectionKind::Data => 0x75,
            SectionKind::Sequence => 0x76,
            SectionKind::Value => 0x77,
            SectionKind::Footer => 0x78,
        }
    }

    /// The name of the descriptor.
    pub fn name(self) -> &'static [u8]
        ensures { result.now ≡ name_of self }
    {
        match self {
            SectionKind::Header => b"amqp:header:list",
            SectionKind::DeliveryAnnotations => b"amqp:delivery-annotations:map",
            SectionKind::MessageAnnotations => b"amqp:message-annotations:map",
            SectionKind::Properties => b"amqp:properties:list",
            SectionKind::ApplicationProperties => b"amqp:application-properties:map",
            SectionKind::Data => b"amqp:data:binary",
            SectionKind::Sequence => b"amqp:amqp-sequence:list",
            SectionKind::Value => b"amqp:amqp-value:*",
            SectionKind::Footer => b"amqp:footer:map",
        }
    }

    /// Whether the value is the descriptor, by its number or by its name.
    pub fn is_descriptor(self, descriptor: &Value) -> bool
        ensures { result ≡ is_descriptor self (view descriptor.now) }
    {
        match descriptor {
            Value::Ulong(number) => *number == u64::from(self.number()),
            Value::Symbol(name) => name.as_slice() == self.name(),
            _ => false,
        }
    }
}
