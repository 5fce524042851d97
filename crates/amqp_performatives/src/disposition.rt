//! Disposition (OASIS AMQP 1.0, part 2, section 2.7.6).
ghost use Rattle.std.specs.Prelude.{◌≡◌, OnOk};
ghost use Rattle.amqp_composites.specs.amqp_fields.Left.{left};
ghost use Rattle.amqp_composites.specs.amqp_fields.Fields.{Gives, MakesItems, trimmed};
ghost use Rattle.amqp_performatives.specs.Disposition.{disposition_of, disposition_fields, IsDispositionValid};

use amqp_composites::amqp_data::ValueList;
use amqp_composites::amqp_fields::{BaseError, FieldWriter, Fields};
use amqp_composites::modes::Role;
use amqp_termini::state::DeliveryState;
use std::alloc::Global;

/// What has become of deliveries (part 2, section 2.7.6).
#[derive(Debug, Drop)]
pub struct Disposition {
    /// Which role the end has.
    pub role: Role,
    /// The first delivery.
    pub first: u32,
    /// The last delivery; the first where it is absent.
    pub last: Option<u32>,
    /// Whether the deliveries are settled. The default is `false`.
    pub settled: bool,
    /// The state of the deliveries.
    pub state: Option<DeliveryState>,
    /// Whether the answer may wait. The default is `false`.
    pub batchable: bool,
}

#[tactic(auto, unfolding(crate::specs::Disposition::disposition_of))]
pub(crate) fn read_disposition(alloc: Global, mut fields: Fields) -> Result<Disposition, BaseError>
    ensures { Gives result (disposition_of (left fields)) }
{
    let role = fields.required(alloc)?;
    let first = fields.required(alloc)?;
    let last = fields.optional(alloc)?;
    let settled = fields.or_default(alloc, false)?;
    let state = fields.optional(alloc)?;
    let batchable = fields.or_default(alloc, false)?;
    fields.end()?;
    Ok(Disposition {
        role,
        first,
        last,
        settled,
        state,
        batchable,
    })
}

/// The fields of a Disposition without the nulls at the end; the one error is want of memory.
pub fn disposition_list(alloc: Global, body: &Disposition) -> Result<ValueList, BaseError>
    ensures list { MakesItems (λ l. l) result (trimmed (disposition_fields body.now)) }
    ensures valid { OnOk result (IsDispositionValid body.now) }
{
    let mut fields = FieldWriter::new(alloc);
    fields.required(&body.role)?;
    fields.required(&body.first)?;
    fields.optional(&body.last)?;
    fields.unless_default(&body.settled, &false)?;
    fields.optional(&body.state)?;
    fields.unless_default(&body.batchable, &false)?;
    Ok(fields.finish())
}
