//! Headers of messages (OASIS AMQP 1.0, part 3, section 3.2.1).
ghost use Rattle.std.specs.Prelude.{◌≡◌};
ghost use Rattle.amqp_fields.specs.Left.{left};
ghost use Rattle.amqp_fields.specs.Fields.{Gives, MakesItems, trimmed};
ghost use Rattle.amqp_sections.specs.Header.{header_of, header_fields};

use amqp_data::ValueList;
use amqp_fields::{BaseError, FieldWriter, Fields, TryClone};
use std::alloc::{AllocError, Global};

/// How a message is to be carried (part 3, section 3.2.1).
#[derive(Debug, Drop, PartialEq, Eq)]
pub struct Header {
    /// Whether the message must not be lost. The default is `false`.
    pub durable: bool,
    /// How important the message is: the higher the more. The default is `4`.
    pub priority: u8,
    /// How long the message lives, in milliseconds.
    pub ttl: Option<u32>,
    /// Whether nobody has taken it before. The default is `false`.
    pub first_acquirer: bool,
    /// The failed deliveries so far. The default is `0`.
    pub delivery_count: u32,
}

impl TryClone for Header {
    fn try_clone(&self, _alloc: Global) -> Result<Self, AllocError> {
        Ok(Header {
            durable: self.durable,
            priority: self.priority,
            ttl: self.ttl,
            first_acquirer: self.first_acquirer,
            delivery_count: self.delivery_count,
        })
    }
}

impl Header {
    /// The header that the fields say: `Decode` exactly where they say none.
    #[tactic(auto, unfolding(crate::specs::Header::header_of))]
    pub fn from_fields(alloc: Global, mut fields: Fields) -> Result<Self, BaseError>
        ensures { Gives result (header_of (left fields)) }
    {
        let durable = fields.or_default(alloc, false)?;
        let priority = fields.or_default(alloc, 4)?;
        let ttl = fields.optional(alloc)?;
        let first_acquirer = fields.or_default(alloc, false)?;
        let delivery_count = fields.or_default(alloc, 0)?;
        fields.end()?;
        Ok(Header {
            durable,
            priority,
            ttl,
            first_acquirer,
            delivery_count,
        })
    }

    /// Its fields without the nulls at the end; the one error is want of memory.
    pub fn to_list(&self, alloc: Global) -> Result<ValueList, BaseError>
        ensures { MakesItems (λ l. l) result (trimmed (header_fields self.now)) }
    {
        let mut fields = FieldWriter::new(alloc);
        fields.unless_default(&self.durable, &false)?;
        fields.unless_default(&self.priority, &4)?;
        fields.optional(&self.ttl)?;
        fields.unless_default(&self.first_acquirer, &false)?;
        fields.unless_default(&self.delivery_count, &0)?;
        Ok(fields.finish())
    }
}
