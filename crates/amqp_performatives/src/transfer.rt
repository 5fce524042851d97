//! Transfer (OASIS AMQP 1.0, part 2, section 2.7.5).
ghost use Rattle.std.specs.Prelude.{◌≡◌, OnOk};
ghost use Rattle.amqp_composites.specs.amqp_fields.Left.{left};
ghost use Rattle.amqp_composites.specs.amqp_fields.Fields.{Gives, MakesItems, trimmed};
ghost use Rattle.amqp_performatives.specs.Transfer.{transfer_of, transfer_fields, IsTransferValid};

use amqp_composites::amqp_data::{Binary, ValueList};
use amqp_composites::amqp_fields::{BaseError, FieldWriter, Fields};
use amqp_composites::modes::ReceiverSettleMode;
use amqp_termini::state::DeliveryState;
use std::alloc::Global;

/// A part of a delivery or all of it; its payload follows (part 2, section 2.7.5).
#[derive(Debug, Drop)]
pub struct Transfer {
    /// The link.
    pub handle: u32,
    /// The number of the delivery in the session.
    pub delivery_id: Option<u32>,
    /// The tag of the delivery on the link.
    pub delivery_tag: Option<Binary>,
    /// The format of the message.
    pub message_format: Option<u32>,
    /// Whether the delivery is settled.
    pub settled: Option<bool>,
    /// Whether more of the delivery follows. The default is `false`.
    pub more: bool,
    /// When the receiver settles this delivery.
    pub rcv_settle_mode: Option<ReceiverSettleMode>,
    /// The state of the delivery at the sender.
    pub state: Option<DeliveryState>,
    /// Whether the delivery is one that was not settled. The default is `false`.
    pub resume: bool,
    /// Whether the delivery is given up. The default is `false`.
    pub aborted: bool,
    /// Whether the answer may wait. The default is `false`.
    pub batchable: bool,
}

#[tactic(auto, unfolding(crate::specs::Transfer::transfer_of))]
pub(crate) fn read_transfer(alloc: Global, mut fields: Fields) -> Result<Transfer, BaseError>
    ensures { Gives result (transfer_of (left fields)) }
{
    let handle = fields.required(alloc)?;
    let delivery_id = fields.optional(alloc)?;
    let delivery_tag = fields.optional(alloc)?;
    let message_format = fields.optional(alloc)?;
    let settled = fields.optional(alloc)?;
    let more = fields.or_default(alloc, false)?;
    let rcv_settle_mode = fields.optional(alloc)?;
    let state = fields.optional(alloc)?;
    let resume = fields.or_default(alloc, false)?;
    let aborted = fields.or_default(alloc, false)?;
    let batchable = fields.or_default(alloc, false)?;
    fields.end()?;
    Ok(Transfer {
        handle,
        delivery_id,
        delivery_tag,
        message_format,
        settled,
        more,
        rcv_settle_mode,
        state,
        resume,
        aborted,
        batchable,
    })
}

/// The fields of a Transfer without the nulls at the end; the one error is want of memory.
pub fn transfer_list(alloc: Global, body: &Transfer) -> Result<ValueList, BaseError>
    ensures list { MakesItems (λ l. l) result (trimmed (transfer_fields body.now)) }
    ensures valid { OnOk result (IsTransferValid body.now) }
{
    let mut fields = FieldWriter::new(alloc);
    fields.required(&body.handle)?;
    fields.optional(&body.delivery_id)?;
    fields.optional(&body.delivery_tag)?;
    fields.optional(&body.message_format)?;
    fields.optional(&body.settled)?;
    fields.unless_default(&body.more, &false)?;
    fields.optional(&body.rcv_settle_mode)?;
    fields.optional(&body.state)?;
    fields.unless_default(&body.resume, &false)?;
    fields.unless_default(&body.aborted, &false)?;
    fields.unless_default(&body.batchable, &false)?;
    Ok(fields.finish())
}
