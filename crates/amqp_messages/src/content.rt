//! What a section of a message holds (OASIS AMQP 1.0, part 3, section 3.2).
ghost use Rattle.std.specs.Prelude.{◌≡◌, Option, Some, OnOk, IsTrue, refl};
ghost use Rattle.amqp_data.specs.Data.{Amqp};
ghost use Rattle.amqp_data.specs.View.{view};
ghost use Rattle.amqp_fields.specs.Fields.{Gives, all_keys, is_annotation, is_string, map_with, of_map, binary_in, of_binary};
ghost use Rattle.amqp_fields.specs.Maps.{map_again};
ghost use Rattle.amqp_described.specs.Writing.{numbered, Adds};
ghost use Rattle.amqp_sections.specs.Header.{header_again};
ghost use Rattle.amqp_sections.specs.Properties.{properties_again};
ghost use Rattle.amqp_messages.specs.Content.{header_in, of_header, properties_in, of_properties, list_in, of_list};

use amqp_data::{Binary, Value, ValueList};
use amqp_described::{write_described_binary, write_described_list, write_described_map};
use amqp_fields::{AnnotationMap, BaseError, Field, Fields, TextMap};
use amqp_sections::header::Header;
use amqp_sections::properties::Properties;
use std::alloc::Global;

/// A type that a section may hold. What is written of it is read as the same again.
pub trait Content: Sized {
    ghost reads: { Amqp → Option Self };

    ghost writes: { Self → Amqp };

    ghost valid: { Self → Type 0 };

    /// What the section holds: `Decode` exactly where it holds no such thing.
    fn from_section(alloc: Global, content: Value) -> Result<Self, BaseError>
        ensures { Gives result (reads (view content)) };

    /// Adds the section with that number: `Size` exactly where it is nested too deep or a length needs more than 32 bits.
    fn write(&self, alloc: Global, out: &mut Binary, number: u8) -> Result<(), BaseError>
        ensures adds { Adds result out.old out.new (numbered number (writes self.now)) 33 }
        ensures valid { OnOk result (valid self.now) };

    ghost again: { (x : Self) → valid x → reads (writes x) ≡ Some x };
}

impl Content for Header {
    ghost reads = { header_in };

    ghost writes = { of_header };

    ghost valid = { λ _. Unit {0} };

    fn from_section(alloc: Global, content: Value) -> Result<Self, BaseError> {
        match content {
            Value::List(fields) => Header::from_fields(alloc, Fields::new(fields)),
            _ => Err(BaseError::Decode),
        }
    }

    fn write(&self, alloc: Global, out: &mut Binary, number: u8) -> Result<(), BaseError> {
        let fields = self.to_list(alloc)?;
        write_described_list(out, number, fields.as_slice())
    }

    ghost again = { header_again };
}

impl Content for Properties {
    ghost reads = { properties_in };

    ghost writes = { of_properties };

    ghost valid = { λ _. Unit {0} };

    fn from_section(alloc: Global, content: Value) -> Result<Self, BaseError> {
        match content {
            Value::List(fields) => Properties::from_fields(alloc, Fields::new(fields)),
            _ => Err(BaseError::Decode),
        }
    }

    fn write(&self, alloc: Global, out: &mut Binary, number: u8) -> Result<(), BaseError> {
        let fields = self.to_list(alloc)?;
        write_described_list(out, number, fields.as_slice())
    }

    ghost again = { properties_again };
}

impl Content for AnnotationMap {
    ghost reads = { map_with is_annotation };

    ghost writes = { of_map };

    ghost valid = { λ ps. IsTrue (all_keys is_annotation ps) };

    fn from_section(alloc: Global, content: Value) -> Result<Self, BaseError> {
        AnnotationMap::from_value(alloc, content)
    }

    fn write(&self, _alloc: Global, out: &mut Binary, number: u8) -> Result<(), BaseError> {
        write_described_map(out, number, self.as_map())
    }

    ghost again = { map_again is_annotation };
}

impl Content for TextMap {
    ghost reads = { map_with is_string };

    ghost writes = { of_map };

    ghost valid = { λ ps. IsTrue (all_keys is_string ps) };

    fn from_section(alloc: Global, content: Value) -> Result<Self, BaseError> {
        TextMap::from_value(alloc, content)
    }

    fn write(&self, _alloc: Global, out: &mut Binary, number: u8) -> Result<(), BaseError> {
        write_described_map(out, number, self.as_map())
    }

    ghost again = { map_again is_string };
}

impl Content for Binary {
    ghost reads = { binary_in };

    ghost writes = { of_binary };

    ghost valid = { λ _. Unit {0} };

    fn from_section(_alloc: Global, content: Value) -> Result<Self, BaseError> {
        match content {
            Value::Binary(bytes) => Ok(bytes),
            _ => Err(BaseError::Decode),
        }
    }

    fn write(&self, _alloc: Global, out: &mut Binary, number: u8) -> Result<(), BaseError> {
        write_described_binary(out, number, self.as_slice())
    }

    ghost again = { λ x h. refl };
}

impl Content for ValueList {
    ghost reads = { list_in };

    ghost writes = { of_list };

    ghost valid = { λ _. Unit {0} };

    fn from_section(_alloc: Global, content: Value) -> Result<Self, BaseError> {
        match content {
            Value::List(values) => Ok(values),
            _ => Err(BaseError::Decode),
        }
    }

    fn write(&self, _alloc: Global, out: &mut Binary, number: u8) -> Result<(), BaseError> {
        write_described_list(out, number, self.as_slice())
    }

    ghost again = { λ x h. refl };
}
