//! Flow (OASIS AMQP 1.0, part 2, section 2.7.4).
ghost use Rattle.std.specs.Prelude.{◌≡◌, OnOk};
ghost use Rattle.amqp_composites.specs.amqp_fields.Left.{left};
ghost use Rattle.amqp_composites.specs.amqp_fields.Fields.{Gives, MakesItems, trimmed};
ghost use Rattle.amqp_performatives.specs.Flow.{flow_of, flow_fields, IsFlowValid};

use amqp_composites::amqp_data::ValueList;
use amqp_composites::amqp_fields::{BaseError, FieldMap, FieldWriter, Fields};
use std::alloc::Global;

/// The state of a session's windows and of a link's credit (part 2, section 2.7.4).
#[derive(Debug, Drop)]
pub struct Flow {
    /// The number of the next transfer that is to come.
    pub next_incoming_id: Option<u32>,
    /// How many transfers the end can take.
    pub incoming_window: u32,
    /// The number of the next transfer.
    pub next_outgoing_id: u32,
    /// How many transfers the end can send.
    pub outgoing_window: u32,
    /// The link, where the frame speaks of one.
    pub handle: Option<u32>,
    /// The deliveries of the link so far.
    pub delivery_count: Option<u32>,
    /// How many deliveries may still come.
    pub link_credit: Option<u32>,
    /// How many deliveries wait at the sender.
    pub available: Option<u32>,
    /// Whether the sender is to use up its credit. The default is `false`.
    pub drain: bool,
    /// Whether the peer is to answer with a Flow. The default is `false`.
    pub echo: bool,
    /// Properties of the link's state.
    pub properties: Option<FieldMap>,
}

#[tactic(auto, unfolding(crate::specs::Flow::flow_of))]
pub(crate) fn read_flow(alloc: Global, mut fields: Fields) -> Result<Flow, BaseError>
    ensures { Gives result (flow_of (left fields)) }
{
    let next_incoming_id = fields.optional(alloc)?;
    let incoming_window = fields.required(alloc)?;
    let next_outgoing_id = fields.required(alloc)?;
    let outgoing_window = fields.required(alloc)?;
    let handle = fields.optional(alloc)?;
    let delivery_count = fields.optional(alloc)?;
    let link_credit = fields.optional(alloc)?;
    let available = fields.optional(alloc)?;
    let drain = fields.or_default(alloc, false)?;
    let echo = fields.or_default(alloc, false)?;
    let properties = fields.optional(alloc)?;
    fields.end()?;
    Ok(Flow {
        next_incoming_id,
        incoming_window,
        next_outgoing_id,
        outgoing_window,
        handle,
        delivery_count,
        link_credit,
        available,
        drain,
        echo,
        properties,
    })
}

/// The fields of a Flow without the nulls at the end; the one error is want of memory.
pub fn flow_list(alloc: Global, body: &Flow) -> Result<ValueList, BaseError>
    ensures list { MakesItems (λ l. l) result (trimmed (flow_fields body.now)) }
    ensures valid { OnOk result (IsFlowValid body.now) }
{
    let mut fields = FieldWriter::new(alloc);
    fields.optional(&body.next_incoming_id)?;
    fields.required(&body.incoming_window)?;
    fields.required(&body.next_outgoing_id)?;
    fields.required(&body.outgoing_window)?;
    fields.optional(&body.handle)?;
    fields.optional(&body.delivery_count)?;
    fields.optional(&body.link_credit)?;
    fields.optional(&body.available)?;
    fields.unless_default(&body.drain, &false)?;
    fields.unless_default(&body.echo, &false)?;
    fields.optional(&body.properties)?;
    Ok(fields.finish())
}
