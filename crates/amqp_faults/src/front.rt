//! Values at the front of bytes, as they are read.
ghost use Rattle.std.specs.Prelude.{◌≡◌, IfOk};
ghost use Rattle.amqp_faults.specs.Sees.{SeesFront, SeesPast};

use amqp_value::{Value, ValueError, read_value_within};
use std::alloc::{AllocError, Global};

/// Lets a value go.
pub fn let_go(_value: Value) {}

/// The value that begins the bytes and is nested no deeper than the number, and the bytes after it; none where none begins them.
pub fn front(alloc: Global, bytes: &[u8], depth: u8) -> Result<Option<(Value, &[u8])>, AllocError>
    ensures { IfOk result (λ o. SeesFront (λ x. x.now) o depth bytes.now) }
{
    match read_value_within(alloc, bytes, depth) {
        Ok((value, used)) => {
            let (_, rest) = bytes.split_at(used);
            Ok(Some((value, rest)))
        }
        Err(ValueError::Memory(error)) => Err(error),
        Err(ValueError::Decode) => Ok(None),
        Err(ValueError::Depth | ValueError::Size | ValueError::Short) => unreachable!(),
    }
}

/// The bytes after the value that begins the bytes, as `front` has it.
pub fn past(alloc: Global, bytes: &[u8], depth: u8) -> Result<Option<&[u8]>, AllocError>
    ensures { IfOk result (λ o. SeesPast (λ x. x.now) o depth bytes.now) }
{
    match front(alloc, bytes, depth)? {
        Some((value, rest)) => {
            let_go(value);
            Ok(Some(rest))
        }
        None => Ok(None),
    }
}
