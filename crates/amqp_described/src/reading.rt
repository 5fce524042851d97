//! Values at the front of bytes, and values that fill them.
ghost use Rattle.std.specs.Prelude.{◌≡◌};
ghost use Rattle.amqp_described.specs.Reading.{ReadsFront, IsTheOne, Fill};

use crate::error::body_error;
use amqp_composites::amqp_fields::BaseError;
use amqp_value::amqp_data::{Value, ValueList};
use amqp_value::{read_value_within, read_values};
use std::alloc::Global;

/// The value that begins the input, nested at most so many levels deep, and how many bytes it takes: `Decode` exactly where
/// there is none.
pub fn read_front(alloc: Global, input: &[u8], levels: u8) -> Result<(Value, usize), BaseError>
    ensures { ReadsFront result levels input.now }
{
    match read_value_within(alloc, input, levels) {
        Ok((value, used)) => Ok((value, used)),
        Err(error) => Err(body_error(error)),
    }
}

/// The values that fill the input, each nested at most so many levels deep: `Decode` exactly where there are none.
pub fn read_whole(alloc: Global, input: &[u8], levels: u8) -> Result<ValueList, BaseError>
    ensures { IsTheOne result (Fill levels input.now) }
{
    match read_values(alloc, input, levels) {
        Ok(values) => Ok(values),
        Err(error) => Err(body_error(error)),
    }
}
