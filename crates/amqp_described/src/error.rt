//! The errors of values as errors of bodies.
ghost use Rattle.std.specs.Prelude.{◌≡◌};
ghost use Rattle.amqp_described.specs.Error.{of_value_error};

use amqp_composites::amqp_fields::BaseError;
use amqp_value::error::ValueError;

/// The error of a body whose value has that error: `Size` where the value is too long or nested too deep.
pub fn body_error(error: ValueError) -> BaseError
    ensures { result ≡ of_value_error error }
{
    match error {
        ValueError::Memory(error) => BaseError::Memory(error),
        ValueError::Decode | ValueError::Short => BaseError::Decode,
        ValueError::Depth | ValueError::Size => BaseError::Size,
    }
}
