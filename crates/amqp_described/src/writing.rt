//! A value behind the number that says what it is, at the end of bytes.
ghost use Rattle.std.specs.Prelude.{◌≡◌};
ghost use Rattle.amqp_value.specs.amqp_data.Data.{scalar, binary, list, dict};
ghost use Rattle.amqp_value.specs.amqp_data.View.{view, items_view};
ghost use Rattle.amqp_value.specs.Writing.{Writes};
ghost use Rattle.amqp_described.specs.Error.{of_value_result};
ghost use Rattle.amqp_described.specs.Writing.{numbered, Adds, PutsNumber};

use crate::error::body_error;
use amqp_composites::amqp_fields::BaseError;
use amqp_value::amqp_data::{Binary, OrderedMap, Value};
use amqp_value::error::ValueError;
use amqp_value::{write_binary, write_fields, write_list, write_map, write_value};

/// The same, with the error of a body.
fn based(written: Result<(), ValueError>) -> Result<(), BaseError>
    ensures { result ≡ of_value_result written }
{
    match written {
        Ok(()) => Ok(()),
        Err(error) => Err(body_error(error)),
    }
}

fn put_value(out: &mut Binary, value: &Value) -> Result<(), ValueError>
    ensures { Writes result out.old out.new (view value.now) 32 }
{
    write_value(out, value)
}

fn put_number(out: &mut Binary, number: u8) -> Result<(), BaseError>
    ensures { PutsNumber result out.old out.new number }
{
    out.push(0)?;
    based(put_value(out, &Value::Ulong(u64::from(number))))
}

/// Adds the value behind the number: `Size` exactly where it is nested more than 32 deep or a length needs more than 32 bits.
pub fn write_described_value(out: &mut Binary, number: u8, value: &Value) -> Result<(), BaseError>
    ensures { Adds result out.old out.new (numbered number (view value.now)) 33 }
{
    put_number(out, number)?;
    based(put_value(out, value))
}

/// Adds the list of the fields behind the number: `Size` exactly where one is nested more than 32 deep or a length needs more
/// than 32 bits.
pub fn write_described_fields(
    out: &mut Binary,
    number: u8,
    fields: &[Value],
) -> Result<(), BaseError>
    ensures { Adds result out.old out.new (numbered number (list (items_view fields.now))) 34 }
{
    put_number(out, number)?;
    based(write_fields(out, fields))
}

/// Adds the list of the values behind the number: `Size` exactly where it is nested more than 32 deep or a length needs more
/// than 32 bits.
pub fn write_described_list(out: &mut Binary, number: u8, values: &[Value]) -> Result<(), BaseError>
    ensures { Adds result out.old out.new (numbered number (list (items_view values.now))) 33 }
{
    put_number(out, number)?;
    based(write_list(out, values))
}

/// Adds the map behind the number: `Size` exactly where it is nested more than 32 deep or a length needs more than 32 bits.
pub fn write_described_map(out: &mut Binary, number: u8, map: &OrderedMap) -> Result<(), BaseError>
    ensures { Adds result out.old out.new (numbered number (dict map.now)) 33 }
{
    put_number(out, number)?;
    based(write_map(out, map))
}

/// Adds the binary behind the number: `Size` exactly where its length needs more than 32 bits.
pub fn write_described_binary(out: &mut Binary, number: u8, bytes: &[u8]) -> Result<(), BaseError>
    ensures { Adds result out.old out.new (numbered number (scalar (binary bytes.now))) 33 }
{
    put_number(out, number)?;
    based(write_binary(out, bytes))
}
