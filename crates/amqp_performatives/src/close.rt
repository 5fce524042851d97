//! Close (OASIS AMQP 1.0, part 2, section 2.7.9).
ghost use Rattle.std.specs.Prelude.{◌≡◌, OnOk};
ghost use Rattle.amqp_composites.specs.amqp_fields.Left.{left};
ghost use Rattle.amqp_composites.specs.amqp_fields.Fields.{Gives, MakesItems, trimmed};
ghost use Rattle.amqp_performatives.specs.Close.{close_of, close_fields, IsCloseValid};

use amqp_composites::amqp_data::ValueList;
use amqp_composites::amqp_fields::{BaseError, FieldWriter, Fields};
use amqp_composites::error::Error;
use std::alloc::Global;

/// The close of a connection (part 2, section 2.7.9).
#[derive(Debug, Drop)]
pub struct Close {
    /// Why it is closed.
    pub error: Option<Error>,
}

#[tactic(auto, unfolding(crate::specs::Close::close_of))]
pub(crate) fn read_close(alloc: Global, mut fields: Fields) -> Result<Close, BaseError>
    ensures { Gives result (close_of (left fields)) }
{
    let error = fields.optional(alloc)?;
    fields.end()?;
    Ok(Close { error })
}

/// The fields of a Close without the nulls at the end; the one error is want of memory.
pub fn close_list(alloc: Global, body: &Close) -> Result<ValueList, BaseError>
    ensures list { MakesItems (λ l. l) result (trimmed (close_fields body.now)) }
    ensures valid { OnOk result (IsCloseValid body.now) }
{
    let mut fields = FieldWriter::new(alloc);
    fields.optional(&body.error)?;
    Ok(fields.finish())
}
