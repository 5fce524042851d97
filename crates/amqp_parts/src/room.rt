//! How many bytes stand behind the fields of a Transfer in a frame (OASIS AMQP 1.0, part 2, section 2.3).
ghost use Rattle.std.specs.Prelude.{◌≡◌, IfOk};
ghost use Rattle.amqp_parts.specs.Cut.{measured, behind, room_for};

use amqp_composites::CompositeKind;
use amqp_described::put_alone;
use amqp_fields::BaseError;
use amqp_performatives::transfer::{Transfer, transfer_list};
use std::alloc::{AllocError, Global};

/// The bytes of a frame before its body (section 2.3.1).
const HEADER: usize = 8;

/// How many bytes the fields take; none where they have no bytes.
fn fields_len(alloc: Global, transfer: &Transfer) -> Result<Option<usize>, AllocError>
    ensures { IfOk result (λ n. n ≡ measured transfer.now) }
{
    match put_alone(
        alloc,
        CompositeKind::Transfer,
        transfer_list(alloc, transfer),
    ) {
        Ok(fields) => Ok(Some(fields.len())),
        Err(BaseError::Memory(error)) => Err(error),
        Err(BaseError::Decode) => Ok(None),
        Err(BaseError::Size) => Ok(None),
    }
}

/// What is left of a frame of that size behind its header and the fields.
fn behind(max_frame: u32, fields: Option<usize>) -> Option<usize>
    ensures { result ≡ behind max_frame fields }
{
    (max_frame as usize)
        .checked_sub(fields?)?
        .checked_sub(HEADER)
}

/// How many bytes may stand behind the fields of the Transfer in a frame of that size; none where the fields do not fit in.
pub(crate) fn room_for(
    alloc: Global,
    transfer: &Transfer,
    max_frame: u32,
) -> Result<Option<usize>, AllocError>
    ensures { IfOk result (λ n. n ≡ room_for max_frame transfer.now) }
{
    let fields = fields_len(alloc, transfer)?;
    Ok(behind(max_frame, fields))
}
