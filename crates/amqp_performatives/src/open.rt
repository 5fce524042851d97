//! Open (OASIS AMQP 1.0, part 2, section 2.7.1).
ghost use Rattle.std.specs.Prelude.{◌≡◌, OnOk};
ghost use Rattle.amqp_composites.specs.amqp_fields.Left.{left};
ghost use Rattle.amqp_composites.specs.amqp_fields.Fields.{Gives, MakesItems, trimmed};
ghost use Rattle.amqp_performatives.specs.Open.{open_of, open_fields, IsOpenValid};

use amqp_composites::amqp_data::{SymbolList, Text, ValueList};
use amqp_composites::amqp_fields::{BaseError, FieldMap, FieldWriter, Fields};
use std::alloc::Global;

/// What an end says of itself as it opens a connection (part 2, section 2.7.1).
#[derive(Debug, Drop)]
pub struct Open {
    /// The name of the container.
    pub container_id: Text,
    /// The host that the peer is to be.
    pub hostname: Option<Text>,
    /// The largest frame that the end takes, in bytes. The default is `u32::MAX`.
    pub max_frame_size: u32,
    /// The highest number of a channel. The default is `u16::MAX`.
    pub channel_max: u16,
    /// How long the end waits for a frame, in milliseconds.
    pub idle_time_out: Option<u32>,
    /// Locales of texts that the end writes.
    pub outgoing_locales: Option<SymbolList>,
    /// Locales of texts that the end reads.
    pub incoming_locales: Option<SymbolList>,
    /// The extensions that the end supports.
    pub offered_capabilities: Option<SymbolList>,
    /// The extensions that the end uses where the peer has them.
    pub desired_capabilities: Option<SymbolList>,
    /// Properties of the connection.
    pub properties: Option<FieldMap>,
}

#[tactic(auto, unfolding(crate::specs::Open::open_of))]
pub(crate) fn read_open(alloc: Global, mut fields: Fields) -> Result<Open, BaseError>
    ensures { Gives result (open_of (left fields)) }
{
    let container_id = fields.required(alloc)?;
    let hostname = fields.optional(alloc)?;
    let max_frame_size = fields.or_default(alloc, u32::MAX)?;
    let channel_max = fields.or_default(alloc, u16::MAX)?;
    let idle_time_out = fields.optional(alloc)?;
    let outgoing_locales = fields.optional(alloc)?;
    let incoming_locales = fields.optional(alloc)?;
    let offered_capabilities = fields.optional(alloc)?;
    let desired_capabilities = fields.optional(alloc)?;
    let properties = fields.optional(alloc)?;
    fields.end()?;
    Ok(Open {
        container_id,
        hostname,
        max_frame_size,
        channel_max,
        idle_time_out,
        outgoing_locales,
        incoming_locales,
        offered_capabilities,
        desired_capabilities,
        properties,
    })
}

/// The fields of an Open without the nulls at the end; the one error is want of memory.
pub fn open_list(alloc: Global, body: &Open) -> Result<ValueList, BaseError>
    ensures list { MakesItems (λ l. l) result (trimmed (open_fields body.now)) }
    ensures valid { OnOk result (IsOpenValid body.now) }
{
    let mut fields = FieldWriter::new(alloc);
    fields.required(&body.container_id)?;
    fields.optional(&body.hostname)?;
    fields.unless_default(&body.max_frame_size, &u32::MAX)?;
    fields.unless_default(&body.channel_max, &u16::MAX)?;
    fields.optional(&body.idle_time_out)?;
    fields.optional(&body.outgoing_locales)?;
    fields.optional(&body.incoming_locales)?;
    fields.optional(&body.offered_capabilities)?;
    fields.optional(&body.desired_capabilities)?;
    fields.optional(&body.properties)?;
    Ok(fields.finish())
}
