//! Errors (OASIS AMQP 1.0, part 2, section 2.8.14).
ghost use Rattle.std.specs.Prelude.{◌≡◌, OnOk};
ghost use Rattle.amqp_fields.specs.Left.{left};
ghost use Rattle.amqp_fields.specs.Fields.{Gives, MakesItems, trimmed};
ghost use Rattle.amqp_composites.specs.Error.{error_of, error_fields, error_in, of_error, IsErrorValid, error_again};

use crate::described::{list_value, read_list};
use crate::kind::CompositeKind;
use amqp_fields::amqp_data::{Symbol, Text, Value, ValueList};
use amqp_fields::{BaseError, Field, FieldMap, FieldWriter, Fields, TryClone};
use std::alloc::{AllocError, Global};

/// Details of an error (part 2, section 2.8.14).
#[derive(Debug, Drop, PartialEq, Eq)]
pub struct Error {
    /// A symbolic value that names the error.
    pub condition: Symbol,
    /// A description for people.
    pub description: Option<Text>,
    /// More about the error.
    pub info: Option<FieldMap>,
}

impl TryClone for Error {
    fn try_clone(&self, alloc: Global) -> Result<Self, AllocError> {
        let condition = self.condition.try_clone(alloc)?;
        let description = self.description.try_clone(alloc)?;
        let info = self.info.try_clone(alloc)?;
        Ok(Error {
            condition,
            description,
            info,
        })
    }
}

#[tactic(auto, unfolding(crate::specs::Error::error_of))]
pub(crate) fn read_error(alloc: Global, mut fields: Fields) -> Result<Error, BaseError>
    ensures { Gives result (error_of (left fields)) }
{
    let condition = fields.required(alloc)?;
    let description = fields.optional(alloc)?;
    let info = fields.optional(alloc)?;
    fields.end()?;
    Ok(Error {
        condition,
        description,
        info,
    })
}

pub(crate) fn error_list(alloc: Global, body: &Error) -> Result<ValueList, BaseError>
    ensures list { MakesItems (λ l. l) result (trimmed (error_fields body.now)) }
    ensures valid { OnOk result (IsErrorValid body.now) }
{
    let mut fields = FieldWriter::new(alloc);
    fields.required(&body.condition)?;
    fields.optional(&body.description)?;
    fields.optional(&body.info)?;
    Ok(fields.finish())
}

impl Field for Error {
    ghost reads = { error_in };

    ghost writes = { of_error };

    ghost valid = { IsErrorValid };

    fn from_value(alloc: Global, value: Value) -> Result<Self, BaseError> {
        let (kind, fields) = read_list(value)?;
        match kind {
            CompositeKind::Error => read_error(alloc, fields),
            _ => Err(BaseError::Decode),
        }
    }

    fn to_value(&self, alloc: Global) -> Result<Value, BaseError> {
        let fields = error_list(alloc, self)?;
        list_value(alloc, CompositeKind::Error, fields)
    }

    ghost again = { error_again };

    ghost there = { λ x. tt };
}
