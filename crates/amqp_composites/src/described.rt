//! Described lists, as values (OASIS AMQP 1.0, part 1, section 1.4).
ghost use Rattle.std.specs.Prelude.{◌≡◌, Option, Some};
ghost use Rattle.amqp_fields.specs.amqp_data.Data.{scalar, ulong, list as list_of, described};
ghost use Rattle.amqp_fields.specs.amqp_data.View.{view};
ghost use Rattle.amqp_fields.specs.Left.{left};
ghost use Rattle.amqp_fields.specs.Fields.{Makes};
ghost use Rattle.amqp_composites.specs.Kind.{number_of};
ghost use Rattle.amqp_composites.specs.Described.{GivesList, kind_in, list_in};

use crate::kind::CompositeKind;
use amqp_fields::amqp_data::{Described, Value, ValueList};
use amqp_fields::{BaseError, Fields};
use std::alloc::Global;

fn kind_of(descriptor: &Value) -> Option<CompositeKind>
    ensures { result ≡ kind_in (view descriptor.now) }
{
    match descriptor {
        Value::Ulong(number) => CompositeKind::with_number(*number),
        Value::Symbol(name) => CompositeKind::with_name(name.as_slice()),
        _ => None,
    }
}

/// Which list the value is, and its fields.
pub fn read_list(value: Value) -> Result<(CompositeKind, Fields), BaseError>
    ensures { GivesList result (list_in (view value)) }
{
    let Value::Described(described) = value else {
        return Err(BaseError::Decode);
    };
    let (descriptor, value) = described.into_parts();
    let Value::List(list) = value else {
        return Err(BaseError::Decode);
    };
    match kind_of(&descriptor) {
        Some(kind) => Ok((kind, Fields::new(list))),
        None => Err(BaseError::Decode),
    }
}

/// The described list of those fields; the one error is want of memory.
pub fn list_value(alloc: Global, kind: CompositeKind, fields: ValueList) -> Result<Value, BaseError>
    ensures { Makes view result (described (scalar (ulong (number_of kind))) (list_of fields)) }
{
    let number = Value::Ulong(u64::from(kind.number()));
    let described = Described::new(alloc, number, Value::List(fields))?;
    Ok(Value::Described(described))
}
