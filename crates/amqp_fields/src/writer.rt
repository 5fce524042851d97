//! The fields of a described list that is to be written.
ghost use Rattle.std.specs.Prelude.{◌≡◌, ◌≤◌, ◌↔◌, [], length, map, take, IsTrue, OnOk};
ghost use Rattle.amqp_data.specs.Data.{scalar, null};
ghost use Rattle.amqp_data.specs.View.{view, items_view};
ghost use Rattle.amqp_fields.specs.Fields.{maybe, unless, trimmed, IsValid};
ghost use Rattle.amqp_fields.specs.Writer.{written, Adds};

use crate::defaulted::Defaulted;
use crate::error::BaseError;
use crate::field::Field;
use amqp_data::{Value, ValueList};
use std::alloc::Global;

/// Fields in their order; an error leaves them of no use.
#[derive(Drop)]
pub struct FieldWriter {
    alloc: Global,
    values: Vec<Value>,
}

fn is_null(value: &Value) -> bool
    ensures { IsTrue result ↔ (view value.now ≡ scalar null) }
{
    matches!(value, Value::Null)
}

/// How many fields stand before the nulls at the end.
fn kept(values: &[Value]) -> usize
    ensures within { result ≤ length values.now }
    ensures trimmed { items_view (take result values.now) ≡ trimmed (map view values.now) }
{
    let Some((last, front)) = values.split_last() else {
        return 0;
    };
    if is_null(last) {
        kept(front)
    } else {
        values.len()
    }
}

impl FieldWriter {
    /// No fields; takes no memory.
    pub fn new(alloc: Global) -> Self
        ensures { written result ≡ [] }
    {
        FieldWriter {
            alloc,
            values: Vec::new(alloc),
        }
    }

    /// A field that is always there.
    pub fn required<T: Field>(&mut self, field: &T) -> Result<(), BaseError>
        ensures value { Adds result (written self.old) (written self.new) (T.writes field.now) }
        ensures valid { OnOk result (T.valid field.now) }
    {
        let value = field.to_value(self.alloc)?;
        self.values.push(value)?;
        Ok(())
    }

    /// A field that may be absent, as null.
    pub fn optional<T: Field>(&mut self, field: &Option<T>) -> Result<(), BaseError>
        ensures value { Adds result (written self.old) (written self.new) (maybe T.writes field.now) }
        ensures valid { OnOk result (IsValid T.valid field.now) }
    {
        match field {
            None => {
                self.values.push(Value::Null)?;
                Ok(())
            }
            Some(field) => self.required(field),
        }
    }

    /// A field that is null where it is the default.
    pub fn unless_default<T: Defaulted>(&mut self, field: &T, default: &T) -> Result<(), BaseError>
        ensures { Adds result (written self.old) (written self.new) (unless T.same default.now T.writes field.now) }
    {
        if field.is(default) {
            self.values.push(Value::Null)?;
            Ok(())
        } else {
            self.required(field)
        }
    }

    /// The fields without the nulls at the end.
    pub fn finish(self) -> ValueList
        ensures { result ≡ trimmed (written self) }
    {
        let count = kept(&self.values);
        let mut values = self.values;
        values.truncate(count);
        ValueList::from_vec(values)
    }
}
