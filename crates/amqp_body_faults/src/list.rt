//! The described list at the front of a body.
ghost use Rattle.std.specs.Prelude.{◌≡◌, IfOk};
ghost use Rattle.amqp_described.specs.Reading.{ReadsFront};
ghost use Rattle.amqp_faults.specs.Names.{HasFront};
ghost use Rattle.amqp_body_faults.specs.Seen.{SeesKind, SeesValue};

use amqp_composites::CompositeKind;
use amqp_composites::described::read_list;
use amqp_data::Value;
use amqp_described::{LEVELS, read_front};
use amqp_fields::{BaseError, Fields};
use std::alloc::{AllocError, Global};

fn discard(_fields: Fields) {}

/// The value that begins the bytes of a body, and how many it takes.
pub fn front_value(alloc: Global, input: &[u8]) -> Result<(Value, usize), AllocError>
    requires { HasFront 34 input.now }
    ensures { IfOk result (λ x. SeesValue x input.now) }
{
    match read_front(alloc, input, LEVELS) {
        Ok((value, used)) => Ok((value, used)),
        Err(BaseError::Memory(error)) => Err(error),
        Err(BaseError::Decode) => unreachable!(),
        Err(BaseError::Size) => unreachable!(),
    }
}

/// Which of the standard's lists the value is that begins the bytes of a body, if it is one.
pub fn list_kind(alloc: Global, input: &[u8]) -> Result<Option<CompositeKind>, AllocError>
    requires { HasFront 34 input.now }
    ensures { IfOk result (λ o. SeesKind o input.now) }
{
    let (value, _) = front_value(alloc, input)?;
    match read_list(value) {
        Ok((kind, fields)) => {
            discard(fields);
            Ok(Some(kind))
        }
        Err(BaseError::Memory(error)) => Err(error),
        Err(BaseError::Decode) => Ok(None),
        Err(BaseError::Size) => unreachable!(),
    }
}
