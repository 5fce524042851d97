//! Properties of messages (OASIS AMQP 1.0, part 3, section 3.2.4).
ghost use Rattle.std.specs.Prelude.{◌≡◌, OnOk};
ghost use Rattle.amqp_fields.specs.Left.{left};
ghost use Rattle.amqp_fields.specs.Fields.{Gives, MakesItems, trimmed, behind};
ghost use Rattle.amqp_sections.specs.Properties.{address_of, content_of, properties_of, properties_fields};

use crate::message_id::MessageId;
use amqp_data::{Binary, Symbol, Text, Timestamp, ValueList};
use amqp_fields::{BaseError, FieldWriter, Fields, TryClone};
use std::alloc::{AllocError, Global};

/// The properties of a message that nobody changes on its way (part 3, section 3.2.4).
#[derive(Debug, Drop, PartialEq, Eq)]
pub struct Properties {
    /// The number of the message.
    pub message_id: Option<MessageId>,
    /// Who sends it.
    pub user_id: Option<Binary>,
    /// The node that it goes to.
    pub to: Option<Text>,
    /// What it is about.
    pub subject: Option<Text>,
    /// The node that an answer goes to.
    pub reply_to: Option<Text>,
    /// The message that it answers.
    pub correlation_id: Option<MessageId>,
    /// The type of the body, as in RFC 2046.
    pub content_type: Option<Symbol>,
    /// How the body is encoded.
    pub content_encoding: Option<Symbol>,
    /// When it expires.
    pub absolute_expiry_time: Option<Timestamp>,
    /// When it was made.
    pub creation_time: Option<Timestamp>,
    /// The group that it is of.
    pub group_id: Option<Text>,
    /// Its place in the group.
    pub group_sequence: Option<u32>,
    /// The group of an answer.
    pub reply_to_group_id: Option<Text>,
}

impl TryClone for Properties {
    fn try_clone(&self, alloc: Global) -> Result<Self, AllocError> {
        let message_id = self.message_id.try_clone(alloc)?;
        let user_id = self.user_id.try_clone(alloc)?;
        let to = self.to.try_clone(alloc)?;
        let subject = self.subject.try_clone(alloc)?;
        let reply_to = self.reply_to.try_clone(alloc)?;
        let correlation_id = self.correlation_id.try_clone(alloc)?;
        let content_type = self.content_type.try_clone(alloc)?;
        let content_encoding = self.content_encoding.try_clone(alloc)?;
        let group_id = self.group_id.try_clone(alloc)?;
        let reply_to_group_id = self.reply_to_group_id.try_clone(alloc)?;
        Ok(Properties {
            message_id,
            user_id,
            to,
            subject,
            reply_to,
            correlation_id,
            content_type,
            content_encoding,
            absolute_expiry_time: self.absolute_expiry_time,
            creation_time: self.creation_time,
            group_id,
            group_sequence: self.group_sequence,
            reply_to_group_id,
        })
    }
}

/// What the first six fields say of who sends it and to whom.
#[derive(Drop)]
struct AddressPart {
    message_id: Option<MessageId>,
    user_id: Option<Binary>,
    to: Option<Text>,
    subject: Option<Text>,
    reply_to: Option<Text>,
    correlation_id: Option<MessageId>,
}

/// What the last seven say of what it holds and of its group.
#[derive(Drop)]
struct ContentPart {
    content_type: Option<Symbol>,
    content_encoding: Option<Symbol>,
    absolute_expiry_time: Option<Timestamp>,
    creation_time: Option<Timestamp>,
    group_id: Option<Text>,
    group_sequence: Option<u32>,
    reply_to_group_id: Option<Text>,
}

#[tactic(auto, unfolding(crate::specs::Properties::address_of))]
fn read_address(alloc: Global, fields: &mut Fields) -> Result<AddressPart, BaseError>
    ensures value { Gives result (address_of (left fields.old)) }
    ensures rest { OnOk result (left fields.new ≡ behind 6 (left fields.old)) }
{
    let message_id = fields.optional(alloc)?;
    let user_id = fields.optional(alloc)?;
    let to = fields.optional(alloc)?;
    let subject = fields.optional(alloc)?;
    let reply_to = fields.optional(alloc)?;
    let correlation_id = fields.optional(alloc)?;
    Ok(AddressPart {
        message_id,
        user_id,
        to,
        subject,
        reply_to,
        correlation_id,
    })
}

#[tactic(auto, unfolding(crate::specs::Properties::content_of))]
fn read_content(alloc: Global, fields: &mut Fields) -> Result<ContentPart, BaseError>
    ensures value { Gives result (content_of (left fields.old)) }
    ensures rest { OnOk result (left fields.new ≡ behind 7 (left fields.old)) }
{
    let content_type = fields.optional(alloc)?;
    let content_encoding = fields.optional(alloc)?;
    let absolute_expiry_time = fields.optional(alloc)?;
    let creation_time = fields.optional(alloc)?;
    let group_id = fields.optional(alloc)?;
    let group_sequence = fields.optional(alloc)?;
    let reply_to_group_id = fields.optional(alloc)?;
    Ok(ContentPart {
        content_type,
        content_encoding,
        absolute_expiry_time,
        creation_time,
        group_id,
        group_sequence,
        reply_to_group_id,
    })
}

impl Properties {
    /// The properties that the fields say: `Decode` exactly where they say none.
    #[tactic(auto, unfolding(crate::specs::Properties::properties_of))]
    pub fn from_fields(alloc: Global, mut fields: Fields) -> Result<Self, BaseError>
        ensures { Gives result (properties_of (left fields)) }
    {
        let address = read_address(alloc, &mut fields)?;
        let content = read_content(alloc, &mut fields)?;
        fields.end()?;
        Ok(Properties {
            message_id: address.message_id,
            user_id: address.user_id,
            to: address.to,
            subject: address.subject,
            reply_to: address.reply_to,
            correlation_id: address.correlation_id,
            content_type: content.content_type,
            content_encoding: content.content_encoding,
            absolute_expiry_time: content.absolute_expiry_time,
            creation_time: content.creation_time,
            group_id: content.group_id,
            group_sequence: content.group_sequence,
            reply_to_group_id: content.reply_to_group_id,
        })
    }

    /// Their fields without the nulls at the end; the one error is want of memory.
    pub fn to_list(&self, alloc: Global) -> Result<ValueList, BaseError>
        ensures { MakesItems (λ l. l) result (trimmed (properties_fields self.now)) }
    {
        let mut fields = FieldWriter::new(alloc);
        fields.optional(&self.message_id)?;
        fields.optional(&self.user_id)?;
        fields.optional(&self.to)?;
        fields.optional(&self.subject)?;
        fields.optional(&self.reply_to)?;
        fields.optional(&self.correlation_id)?;
        fields.optional(&self.content_type)?;
        fields.optional(&self.content_encoding)?;
        fields.optional(&self.absolute_expiry_time)?;
        fields.optional(&self.creation_time)?;
        fields.optional(&self.group_id)?;
        fields.optional(&self.group_sequence)?;
        fields.optional(&self.reply_to_group_id)?;
        Ok(fields.finish())
    }
}
