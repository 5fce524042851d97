//! What is written is read again as the same, and equality tells exactly whether two are the same.
ghost use Rattle.std.specs.Prelude.{◌≡◌, ◌↔◌, IsTrue, Some};
ghost use Rattle.amqp_fields.specs.Fields.{trimmed};
ghost use Rattle.amqp_sections.specs.declared.header.Header.{Header};
ghost use Rattle.amqp_sections.specs.declared.message_id.MessageId.{MessageId};
ghost use Rattle.amqp_sections.specs.declared.properties.Properties.{Properties};
ghost use Rattle.amqp_sections.specs.Header.{header_of, header_fields};
ghost use Rattle.amqp_sections.specs.Properties.{properties_of, properties_fields};

use crate::header::Header;
use crate::message_id::MessageId;
use crate::properties::Properties;

/// A header is read again as the same.
pub fn header_is_read_again()
    ensures { (x : Header) → header_of (trimmed (header_fields x)) ≡ Some x }
{}

/// Properties are read again as the same.
pub fn properties_are_read_again()
    ensures { (x : Properties) → properties_of (trimmed (properties_fields x)) ≡ Some x }
{}

/// Two headers, properties and numbers of messages are equal exactly where they are the same.
pub fn equal_is_the_same()
    ensures headers { (x y : Header) → IsTrue (⟦<Header as PartialEq>⟧.eq x y) ↔ (x ≡ y) }
    ensures properties { (x y : Properties) → IsTrue (⟦<Properties as PartialEq>⟧.eq x y) ↔ (x ≡ y) }
    ensures message_ids { (x y : MessageId) → IsTrue (⟦<MessageId as PartialEq>⟧.eq x y) ↔ (x ≡ y) }
{}
