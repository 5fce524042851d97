//! The fields of a described list, in their order.
ghost use Rattle.std.specs.Prelude.{◌≡◌};
ghost use Rattle.amqp_data.specs.View.{view, items_view};
ghost use Rattle.amqp_fields.specs.Left.{left};
ghost use Rattle.amqp_fields.specs.Fields.{Gives, first, others, optional, or_default, ends_at};

use crate::error::BaseError;
use crate::field::Field;
use amqp_data::{Value, ValueList};
use std::alloc::Global;
use std::vec::IntoIter;

/// The fields that are still to be read; those behind the last are null.
#[derive(Drop)]
pub struct Fields {
    values: IntoIter<Value>,
}

impl Fields {
    /// The fields of a list.
    pub fn new(list: ValueList) -> Self
        ensures { left result ≡ list }
    {
        Fields {
            values: list.into_vec().into_iter(),
        }
    }

    /// The next field.
    pub fn next(&mut self) -> Value
        ensures value { view result ≡ first (left self.old) }
        ensures rest { left self.new ≡ others (left self.old) }
    {
        match self.values.next() {
            Some(value) => value,
            None => Value::Null,
        }
    }

    /// The next field, which has to be there.
    pub fn required<T: Field>(&mut self, alloc: Global) -> Result<T, BaseError>
        ensures value { Gives result (T.reads (first (left self.old))) }
        ensures rest { left self.new ≡ others (left self.old) }
    {
        let value = self.next();
        T::from_value(alloc, value)
    }

    /// The next field, or none where it is null.
    pub fn optional<T: Field + Drop>(&mut self, alloc: Global) -> Result<Option<T>, BaseError>
        ensures value { Gives result (optional T.reads (first (left self.old))) }
        ensures rest { left self.new ≡ others (left self.old) }
    {
        match self.next() {
            Value::Null => Ok(None),
            value => {
                let found = T::from_value(alloc, value)?;
                Ok(Some(found))
            }
        }
    }

    /// The next field, or the default where it is null.
    pub fn or_default<T: Field + Drop>(&mut self, alloc: Global, default: T) -> Result<T, BaseError>
        ensures value { Gives result (or_default default T.reads (first (left self.old))) }
        ensures rest { left self.new ≡ others (left self.old) }
    {
        match self.next() {
            Value::Null => Ok(default),
            value => T::from_value(alloc, value),
        }
    }

    /// That no field is left.
    pub fn end(mut self) -> Result<(), BaseError>
        ensures { Gives result (ends_at (left self) 0) }
    {
        match self.values.next() {
            None => Ok(()),
            Some(_) => Err(BaseError::Decode),
        }
    }
}
