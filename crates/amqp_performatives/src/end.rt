//! End (OASIS AMQP 1.0, part 2, section 2.7.8).
ghost use Rattle.std.specs.Prelude.{◌≡◌, OnOk};
ghost use Rattle.amqp_composites.specs.amqp_fields.Left.{left};
ghost use Rattle.amqp_composites.specs.amqp_fields.Fields.{Gives, MakesItems, trimmed};
ghost use Rattle.amqp_performatives.specs.End.{end_of, end_fields, IsEndValid};

use amqp_composites::amqp_data::ValueList;
use amqp_composites::amqp_fields::{BaseError, FieldWriter, Fields};
use amqp_composites::error::Error;
use std::alloc::Global;

/// The end of a session (part 2, section 2.7.8).
#[derive(Debug, Drop)]
pub struct End {
    /// Why it ends.
    pub error: Option<Error>,
}

#[tactic(auto, unfolding(crate::specs::End::end_of))]
pub(crate) fn read_end(alloc: Global, mut fields: Fields) -> Result<End, BaseError>
    ensures { Gives result (end_of (left fields)) }
{
    let error = fields.optional(alloc)?;
    fields.end()?;
    Ok(End { error })
}

/// The fields of an End without the nulls at the end; the one error is want of memory.
pub fn end_list(alloc: Global, body: &End) -> Result<ValueList, BaseError>
    ensures list { MakesItems (λ l. l) result (trimmed (end_fields body.now)) }
    ensures valid { OnOk result (IsEndValid body.now) }
{
    let mut fields = FieldWriter::new(alloc);
    fields.optional(&body.error)?;
    Ok(fields.finish())
}
