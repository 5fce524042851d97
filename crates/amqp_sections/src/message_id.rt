//! Numbers of messages (OASIS AMQP 1.0, part 3, sections 3.2.11 to 3.2.14).
ghost use Rattle.std.specs.Prelude.{◌≡◌};
ghost use Rattle.amqp_sections.specs.declared.message_id.MessageId.TheVariants.{Ulong, Uuid, Binary, String};
ghost use Rattle.amqp_sections.specs.MessageId.{message_id_in, of_message_id, message_id_again};

use amqp_data::{Binary, Text, Uuid, Value};
use amqp_fields::{BaseError, Field, TryClone};
use std::alloc::{AllocError, Global};

/// The number of a message, in one of four forms.
#[derive(Debug, Drop, PartialEq, Eq)]
pub enum MessageId {
    /// A number.
    Ulong(u64),
    /// A universally unique identifier.
    Uuid(Uuid),
    /// Bytes.
    Binary(Binary),
    /// A text.
    String(Text),
}

impl TryClone for MessageId {
    fn try_clone(&self, alloc: Global) -> Result<Self, AllocError> {
        match self {
            MessageId::Ulong(number) => Ok(MessageId::Ulong(*number)),
            MessageId::Uuid(uuid) => Ok(MessageId::Uuid(*uuid)),
            MessageId::Binary(bytes) => Ok(MessageId::Binary(bytes.try_clone(alloc)?)),
            MessageId::String(text) => Ok(MessageId::String(text.try_clone(alloc)?)),
        }
    }
}

impl Field for MessageId {
    ghost reads = { message_id_in };

    ghost writes = { of_message_id };

    ghost valid = { λ _. Unit {0} };

    fn from_value(_alloc: Global, value: Value) -> Result<Self, BaseError> {
        match value {
            Value::Ulong(number) => Ok(MessageId::Ulong(number)),
            Value::Uuid(uuid) => Ok(MessageId::Uuid(uuid)),
            Value::Binary(bytes) => Ok(MessageId::Binary(bytes)),
            Value::String(text) => Ok(MessageId::String(text)),
            _ => Err(BaseError::Decode),
        }
    }

    fn to_value(&self, alloc: Global) -> Result<Value, BaseError> {
        match self {
            MessageId::Ulong(number) => Ok(Value::Ulong(*number)),
            MessageId::Uuid(uuid) => Ok(Value::Uuid(*uuid)),
            MessageId::Binary(bytes) => bytes.to_value(alloc),
            MessageId::String(text) => text.to_value(alloc),
        }
    }

    ghost again = { message_id_again };

    ghost there = { elim [ Ulong n ↦ tt | Uuid u ↦ tt | Binary s ↦ tt | String s ↦ tt ] };
}
