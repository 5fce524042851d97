//! Detach (OASIS AMQP 1.0, part 2, section 2.7.7).
ghost use Rattle.std.specs.Prelude.{◌≡◌, OnOk};
ghost use Rattle.amqp_composites.specs.amqp_fields.Left.{left};
ghost use Rattle.amqp_composites.specs.amqp_fields.Fields.{Gives, MakesItems, trimmed};
ghost use Rattle.amqp_performatives.specs.Detach.{detach_of, detach_fields, IsDetachValid};

use amqp_composites::amqp_data::ValueList;
use amqp_composites::amqp_fields::{BaseError, FieldWriter, Fields};
use amqp_composites::error::Error;
use std::alloc::Global;

/// The detach of a link (part 2, section 2.7.7).
#[derive(Debug, Drop)]
pub struct Detach {
    /// The link.
    pub handle: u32,
    /// Whether the link is closed. The default is `false`.
    pub closed: bool,
    /// Why it is detached.
    pub error: Option<Error>,
}

#[tactic(auto, unfolding(crate::specs::Detach::detach_of))]
pub(crate) fn read_detach(alloc: Global, mut fields: Fields) -> Result<Detach, BaseError>
    ensures { Gives result (detach_of (left fields)) }
{
    let handle = fields.required(alloc)?;
    let closed = fields.or_default(alloc, false)?;
    let error = fields.optional(alloc)?;
    fields.end()?;
    Ok(Detach {
        handle,
        closed,
        error,
    })
}

/// The fields of a Detach without the nulls at the end; the one error is want of memory.
pub fn detach_list(alloc: Global, body: &Detach) -> Result<ValueList, BaseError>
    ensures list { MakesItems (λ l. l) result (trimmed (detach_fields body.now)) }
    ensures valid { OnOk result (IsDetachValid body.now) }
{
    let mut fields = FieldWriter::new(alloc);
    fields.required(&body.handle)?;
    fields.unless_default(&body.closed, &false)?;
    fields.optional(&body.error)?;
    Ok(fields.finish())
}
