//! Copies of values: the one error is want of memory.
ghost use Rattle.std.specs.Prelude.{◌≡◌, IfOk};

use crate::value::{Described, Entry, OrderedMap, Value, ValueArray, ValueList};
use std::alloc::{AllocError, Global};

impl Value {
    /// A copy of the value and of all that it holds; the one error is want of memory.
    #[cycle(copy)]
    pub fn try_clone(&self, alloc: Global) -> Result<Self, AllocError>
        ensures { IfOk result (λ v. v ≡ self.now) }
    {
        match self {
            Value::Null => Ok(Value::Null),
            Value::Bool(b) => Ok(Value::Bool(*b)),
            Value::Ubyte(n) => Ok(Value::Ubyte(*n)),
            Value::Ushort(n) => Ok(Value::Ushort(*n)),
            Value::Uint(n) => Ok(Value::Uint(*n)),
            Value::Ulong(n) => Ok(Value::Ulong(*n)),
            Value::Byte(n) => Ok(Value::Byte(*n)),
            Value::Short(n) => Ok(Value::Short(*n)),
            Value::Int(n) => Ok(Value::Int(*n)),
            Value::Long(n) => Ok(Value::Long(*n)),
            Value::Char(c) => Ok(Value::Char(*c)),
            Value::Timestamp(t) => Ok(Value::Timestamp(*t)),
            Value::Uuid(u) => Ok(Value::Uuid(*u)),
            Value::Binary(s) => Ok(Value::Binary(s.try_clone(alloc)?)),
            Value::String(s) => Ok(Value::String(s.try_clone(alloc)?)),
            Value::Symbol(s) => Ok(Value::Symbol(s.try_clone(alloc)?)),
            Value::List(list) => Ok(Value::List(list.try_clone(alloc)?)),
            Value::Map(map) => Ok(Value::Map(map.try_clone(alloc)?)),
            Value::Array(array) => Ok(Value::Array(array.try_clone(alloc)?)),
            Value::Described(described) => Ok(Value::Described(described.try_clone(alloc)?)),
        }
    }
}

impl ValueList {
    /// A copy of the list and of its values; the one error is want of memory.
    #[cycle(copy)]
    pub fn try_clone(&self, alloc: Global) -> Result<Self, AllocError>
        ensures { IfOk result (λ l. l ≡ self.now) }
    {
        let values = copied_values(alloc, &self.values)?;
        Ok(ValueList { values })
    }
}

impl ValueArray {
    /// A copy of the array and of its values; the one error is want of memory.
    #[cycle(copy)]
    pub fn try_clone(&self, alloc: Global) -> Result<Self, AllocError>
        ensures { IfOk result (λ a. a ≡ self.now) }
    {
        let values = copied_values(alloc, &self.values)?;
        Ok(ValueArray {
            kind: self.kind,
            values,
        })
    }
}

impl OrderedMap {
    /// A copy of the map and of its entries; the one error is want of memory.
    #[cycle(copy)]
    pub fn try_clone(&self, alloc: Global) -> Result<Self, AllocError>
        ensures { IfOk result (λ m. m ≡ self.now) }
    {
        let entries = copied_entries(alloc, &self.entries)?;
        Ok(OrderedMap { entries })
    }
}

impl Entry {
    /// A copy of the key and of the value; the one error is want of memory.
    #[cycle(copy)]
    pub fn try_clone(&self, alloc: Global) -> Result<Self, AllocError>
        ensures { IfOk result (λ e. e ≡ self.now) }
    {
        let key = self.key.try_clone(alloc)?;
        let value = self.value.try_clone(alloc)?;
        Ok(Entry { key, value })
    }
}

impl Described {
    /// A copy of the descriptor and of the value; the one error is want of memory.
    #[cycle(copy)]
    pub fn try_clone(&self, alloc: Global) -> Result<Self, AllocError>
        ensures { IfOk result (λ d. d ≡ self.now) }
    {
        let descriptor = self.parts.descriptor.try_clone(alloc)?;
        let value = self.parts.value.try_clone(alloc)?;
        Described::new(alloc, descriptor, value)
    }
}

#[cycle(copy)]
fn copied_values(alloc: Global, values: &[Value]) -> Result<Vec<Value>, AllocError>
    ensures { IfOk result (λ copies. copies.items ≡ values.now) }
{
    let mut copies = Vec::with_capacity(alloc, values.len())?;
    for value in values {
        let copy = value.try_clone(alloc)?;
        copies.push(copy)?;
    }
    Ok(copies)
}

#[cycle(copy)]
fn copied_entries(alloc: Global, entries: &[Entry]) -> Result<Vec<Entry>, AllocError>
    ensures { IfOk result (λ copies. copies.items ≡ entries.now) }
{
    let mut copies = Vec::with_capacity(alloc, entries.len())?;
    for entry in entries {
        let copy = entry.try_clone(alloc)?;
        copies.push(copy)?;
    }
    Ok(copies)
}
