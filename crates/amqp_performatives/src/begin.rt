//! Begin (OASIS AMQP 1.0, part 2, section 2.7.2).
ghost use Rattle.std.specs.Prelude.{◌≡◌, OnOk};
ghost use Rattle.amqp_composites.specs.amqp_fields.Left.{left};
ghost use Rattle.amqp_composites.specs.amqp_fields.Fields.{Gives, MakesItems, trimmed};
ghost use Rattle.amqp_performatives.specs.Begin.{begin_of, begin_fields, IsBeginValid};

use amqp_composites::amqp_data::{SymbolList, ValueList};
use amqp_composites::amqp_fields::{BaseError, FieldMap, FieldWriter, Fields};
use std::alloc::Global;

/// The begin of a session (part 2, section 2.7.2).
#[derive(Debug, Drop)]
pub struct Begin {
    /// The channel of the peer's Begin that this one answers.
    pub remote_channel: Option<u16>,
    /// The number of the next transfer.
    pub next_outgoing_id: u32,
    /// How many transfers the end can take.
    pub incoming_window: u32,
    /// How many transfers the end can send.
    pub outgoing_window: u32,
    /// The highest handle. The default is `u32::MAX`.
    pub handle_max: u32,
    /// The extensions that the end supports.
    pub offered_capabilities: Option<SymbolList>,
    /// The extensions that the end uses where the peer has them.
    pub desired_capabilities: Option<SymbolList>,
    /// Properties of the session.
    pub properties: Option<FieldMap>,
}

#[tactic(auto, unfolding(crate::specs::Begin::begin_of))]
pub(crate) fn read_begin(alloc: Global, mut fields: Fields) -> Result<Begin, BaseError>
    ensures { Gives result (begin_of (left fields)) }
{
    let remote_channel = fields.optional(alloc)?;
    let next_outgoing_id = fields.required(alloc)?;
    let incoming_window = fields.required(alloc)?;
    let outgoing_window = fields.required(alloc)?;
    let handle_max = fields.or_default(alloc, u32::MAX)?;
    let offered_capabilities = fields.optional(alloc)?;
    let desired_capabilities = fields.optional(alloc)?;
    let properties = fields.optional(alloc)?;
    fields.end()?;
    Ok(Begin {
        remote_channel,
        next_outgoing_id,
        incoming_window,
        outgoing_window,
        handle_max,
        offered_capabilities,
        desired_capabilities,
        properties,
    })
}

/// The fields of a Begin without the nulls at the end; the one error is want of memory.
pub fn begin_list(alloc: Global, body: &Begin) -> Result<ValueList, BaseError>
    ensures list { MakesItems (λ l. l) result (trimmed (begin_fields body.now)) }
    ensures valid { OnOk result (IsBeginValid body.now) }
{
    let mut fields = FieldWriter::new(alloc);
    fields.optional(&body.remote_channel)?;
    fields.required(&body.next_outgoing_id)?;
    fields.required(&body.incoming_window)?;
    fields.required(&body.outgoing_window)?;
    fields.unless_default(&body.handle_max, &u32::MAX)?;
    fields.optional(&body.offered_capabilities)?;
    fields.optional(&body.desired_capabilities)?;
    fields.optional(&body.properties)?;
    Ok(fields.finish())
}
