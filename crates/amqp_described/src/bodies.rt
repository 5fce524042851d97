//! The bodies of frames in bytes: the fields of a list behind the number of its kind, and the bytes behind them (OASIS AMQP 1.0,
//! part 2, section 2.3.2).
ghost use Rattle.std.specs.Prelude.{[]};
ghost use Rattle.amqp_composites.specs.Kind.{number_of};
ghost use Rattle.amqp_described.specs.Bodies.{Puts};

use crate::writing::write_described_fields;
use amqp_composites::CompositeKind;
use amqp_composites::amqp_fields::BaseError;
use amqp_value::amqp_data::{Binary, ValueList};
use std::alloc::Global;

/// How deep the list of a performative or of a SASL body may be nested: the list's fields 32 levels deep, the list itself and
/// its descriptor.
pub const LEVELS: u8 = 34;

/// The described list of those fields and the payload behind it. The error is that of the fields, where there are none; `Size`
/// comes where a field is nested more than 32 deep or a length needs more than 32 bits.
pub fn put_fields(
    alloc: Global,
    kind: CompositeKind,
    fields: Result<ValueList, BaseError>,
    payload: &[u8],
) -> Result<Binary, BaseError>
    ensures { Puts result fields (number_of kind) payload.now }
{
    let mut out = Binary::new(alloc);
    write_described_fields(&mut out, kind.number(), fields?.as_slice())?;
    out.append(payload)?;
    Ok(out)
}

/// The described list of those fields, and nothing behind it, with the same errors.
pub fn put_alone(
    alloc: Global,
    kind: CompositeKind,
    fields: Result<ValueList, BaseError>,
) -> Result<Binary, BaseError>
    ensures { Puts result fields (number_of kind) [] }
{
    put_fields(alloc, kind, fields, &[])
}
