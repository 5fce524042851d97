//! What a field of a described list may hold.
ghost use Rattle.std.specs.Prelude.{◌≡◌, Option, Some, OnOk, refl};
ghost use Rattle.amqp_data.specs.Data.{Amqp, array};
ghost use Rattle.std.specs.Vec.Iter.{into_iter_items};
ghost use Rattle.amqp_data.specs.View.{view, items_view};
ghost use Rattle.amqp_fields.specs.Again.{symbols_again};
ghost use Rattle.amqp_fields.specs.Fields.{Gives, Makes, MakesItems, IsThere, bool_in, ubyte_in, ushort_in, uint_in, ulong_in, timestamp_in, binary_in, string_in, symbol_in, symbols_in, all_symbols, of_bool, of_ubyte, of_ushort, of_uint, of_ulong, of_timestamp, of_binary, of_string, of_symbol, symbol_items, of_symbols};

use crate::error::BaseError;
use amqp_data::amqp_text::symbol::SymbolError;
use amqp_data::{Binary, ElementKind, Symbol, SymbolList, Text, Timestamp, Value, ValueArray};
use std::alloc::Global;
use std::vec::IntoIter;

/// A type that a field of a described list may have (OASIS AMQP 1.0, part 1, section 1.4).
/// What is written of it is no null, and is read as the same again where it is valid, as each value of the type is.
pub trait Field: Sized {
    ghost reads: { Amqp → Option Self };

    ghost writes: { Self → Amqp };

    ghost valid: { Self → Type 0 };

    /// What the value holds: `Decode` exactly where it holds no such thing.
    fn from_value(alloc: Global, value: Value) -> Result<Self, BaseError>
        ensures { Gives result (reads (view value)) };

    /// The value that holds it; the one error is want of memory.
    fn to_value(&self, alloc: Global) -> Result<Value, BaseError>
        ensures value { Makes view result (writes self.now) }
        ensures valid { OnOk result (valid self.now) };

    ghost again: { (x : Self) → valid x → reads (writes x) ≡ Some x };

    ghost there: { (x : Self) → IsThere (writes x) };
}

impl Field for bool {
    ghost reads = { bool_in };

    ghost writes = { of_bool };

    ghost valid = { λ _. Unit {0} };

    fn from_value(_alloc: Global, value: Value) -> Result<Self, BaseError> {
        match value {
            Value::Bool(held) => Ok(held),
            _ => Err(BaseError::Decode),
        }
    }

    fn to_value(&self, _alloc: Global) -> Result<Value, BaseError> {
        Ok(Value::Bool(*self))
    }

    ghost again = { λ x h. refl };

    ghost there = { λ x. tt };
}

impl Field for u8 {
    ghost reads = { ubyte_in };

    ghost writes = { of_ubyte };

    ghost valid = { λ _. Unit {0} };

    fn from_value(_alloc: Global, value: Value) -> Result<Self, BaseError> {
        match value {
            Value::Ubyte(held) => Ok(held),
            _ => Err(BaseError::Decode),
        }
    }

    fn to_value(&self, _alloc: Global) -> Result<Value, BaseError> {
        Ok(Value::Ubyte(*self))
    }

    ghost again = { λ x h. refl };

    ghost there = { λ x. tt };
}

impl Field for u16 {
    ghost reads = { ushort_in };

    ghost writes = { of_ushort };

    ghost valid = { λ _. Unit {0} };

    fn from_value(_alloc: Global, value: Value) -> Result<Self, BaseError> {
        match value {
            Value::Ushort(held) => Ok(held),
            _ => Err(BaseError::Decode),
        }
    }

    fn to_value(&self, _alloc: Global) -> Result<Value, BaseError> {
        Ok(Value::Ushort(*self))
    }

    ghost again = { λ x h. refl };

    ghost there = { λ x. tt };
}

impl Field for u32 {
    ghost reads = { uint_in };

    ghost writes = { of_uint };

    ghost valid = { λ _. Unit {0} };

    fn from_value(_alloc: Global, value: Value) -> Result<Self, BaseError> {
        match value {
            Value::Uint(held) => Ok(held),
            _ => Err(BaseError::Decode),
        }
    }

    fn to_value(&self, _alloc: Global) -> Result<Value, BaseError> {
        Ok(Value::Uint(*self))
    }

    ghost again = { λ x h. refl };

    ghost there = { λ x. tt };
}

impl Field for u64 {
    ghost reads = { ulong_in };

    ghost writes = { of_ulong };

    ghost valid = { λ _. Unit {0} };

    fn from_value(_alloc: Global, value: Value) -> Result<Self, BaseError> {
        match value {
            Value::Ulong(held) => Ok(held),
            _ => Err(BaseError::Decode),
        }
    }

    fn to_value(&self, _alloc: Global) -> Result<Value, BaseError> {
        Ok(Value::Ulong(*self))
    }

    ghost again = { λ x h. refl };

    ghost there = { λ x. tt };
}

impl Field for Timestamp {
    ghost reads = { timestamp_in };

    ghost writes = { of_timestamp };

    ghost valid = { λ _. Unit {0} };

    fn from_value(_alloc: Global, value: Value) -> Result<Self, BaseError> {
        match value {
            Value::Timestamp(held) => Ok(held),
            _ => Err(BaseError::Decode),
        }
    }

    fn to_value(&self, _alloc: Global) -> Result<Value, BaseError> {
        Ok(Value::Timestamp(*self))
    }

    ghost again = { λ x h. refl };

    ghost there = { λ x. tt };
}

impl Field for Binary {
    ghost reads = { binary_in };

    ghost writes = { of_binary };

    ghost valid = { λ _. Unit {0} };

    fn from_value(_alloc: Global, value: Value) -> Result<Self, BaseError> {
        match value {
            Value::Binary(held) => Ok(held),
            _ => Err(BaseError::Decode),
        }
    }

    fn to_value(&self, alloc: Global) -> Result<Value, BaseError> {
        let copy = self.try_clone(alloc)?;
        Ok(Value::Binary(copy))
    }

    ghost again = { λ x h. refl };

    ghost there = { λ x. tt };
}

impl Field for Text {
    ghost reads = { string_in };

    ghost writes = { of_string };

    ghost valid = { λ _. Unit {0} };

    fn from_value(_alloc: Global, value: Value) -> Result<Self, BaseError> {
        match value {
            Value::String(held) => Ok(held),
            _ => Err(BaseError::Decode),
        }
    }

    fn to_value(&self, alloc: Global) -> Result<Value, BaseError> {
        let copy = self.try_clone(alloc)?;
        Ok(Value::String(copy))
    }

    ghost again = { λ x h. refl };

    ghost there = { λ x. tt };
}

fn copy_of(alloc: Global, symbol: &Symbol) -> Result<Symbol, BaseError>
    ensures { Makes of_symbol result (of_symbol symbol.now) }
{
    match Symbol::from_slice(alloc, symbol.as_slice()) {
        Ok(copy) => Ok(copy),
        Err(SymbolError::Memory(error)) => Err(BaseError::Memory(error)),
        Err(SymbolError::NotAscii) => Err(BaseError::Decode),
    }
}

impl Field for Symbol {
    ghost reads = { symbol_in };

    ghost writes = { of_symbol };

    ghost valid = { λ _. Unit {0} };

    fn from_value(_alloc: Global, value: Value) -> Result<Self, BaseError> {
        match value {
            Value::Symbol(held) => Ok(held),
            _ => Err(BaseError::Decode),
        }
    }

    fn to_value(&self, alloc: Global) -> Result<Value, BaseError> {
        let copy = copy_of(alloc, self)?;
        Ok(Value::Symbol(copy))
    }

    ghost again = { λ x h. refl };

    ghost there = { λ x. tt };
}

impl Field for SymbolList {
    ghost reads = { symbols_in };

    ghost writes = { of_symbols };

    ghost valid = { λ _. Unit {0} };

    fn from_value(alloc: Global, value: Value) -> Result<Self, BaseError> {
        match value {
            Value::Symbol(symbol) => {
                let mut symbols = SymbolList::new(alloc);
                symbols.push(symbol)?;
                Ok(symbols)
            }
            Value::Array(array) => match array.kind() {
                ElementKind::Symbol => symbols_of(alloc, array.into_vec().into_iter()),
                _ => Err(BaseError::Decode),
            },
            _ => Err(BaseError::Decode),
        }
    }

    fn to_value(&self, alloc: Global) -> Result<Value, BaseError> {
        let array = array_of(alloc, self.as_slice())?;
        Ok(Value::Array(array))
    }

    ghost again = { λ x h. symbols_again x };

    ghost there = { λ x. tt };
}

fn symbols_of(alloc: Global, values: IntoIter<Value>) -> Result<SymbolList, BaseError>
    ensures { Gives result (all_symbols (items_view (into_iter_items values))) }
{
    let mut left = values;
    let mut symbols = SymbolList::new(alloc);
    while let Some(value) = left.next() {
        let symbol = Symbol::from_value(alloc, value)?;
        symbols.push(symbol)?;
    }
    Ok(symbols)
}

fn values_of(alloc: Global, symbols: &[Symbol]) -> Result<Vec<Value>, BaseError>
    ensures { MakesItems (λ vs. items_view vs.items) result (symbol_items symbols.now) }
{
    let mut values = Vec::new(alloc);
    for symbol in symbols {
        let copy = copy_of(alloc, symbol)?;
        values.push(Value::Symbol(copy))?;
    }
    Ok(values)
}

fn array_of(alloc: Global, symbols: &[Symbol]) -> Result<ValueArray, BaseError>
    ensures { Makes (λ a. array a.0 a.1) result (of_symbols symbols.now) }
{
    let values = values_of(alloc, symbols)?;
    match ValueArray::from_vec(ElementKind::Symbol, values) {
        Some(array) => Ok(array),
        None => Err(BaseError::Decode),
    }
}
