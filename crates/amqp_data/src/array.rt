//! Arrays: values of one kind (OASIS AMQP 1.0, part 1, section 1.6.24).
ghost use Rattle.std.specs.Prelude.{◌≡◌, ◌↔◌, Option, Some, None, IsTrue, IfOk, OnOk, OnErr, IsErrOf, IfSome, IsNone};
ghost use Rattle.amqp_data.specs.Data.{no_items, count, pushed, element_kind, AreOfKind};
ghost use Rattle.amqp_data.specs.View.{view, items_view};
ghost use Rattle.amqp_data.specs.declared.array.ArrayError.TheVariants.{Memory};
ghost use Rattle.amqp_data.specs.Errors.{IsMemory};

use crate::kind::{ElementKind, same_kind};
use crate::value::{Value, ValueArray};
use std::alloc::{AllocError, AllocFailed, Global};
use thiserror::Error;

/// Why an array does not take a value.
#[derive(Clone, Copy, Debug, PartialEq, Eq, Error)]
pub enum ArrayError {
    /// There was not enough memory.
    #[error("Memory")]
    Memory(AllocError),
    /// The value is of another kind than the array.
    #[error("OtherKind")]
    OtherKind,
}

impl From<AllocError> for ArrayError {
    ghost from_gives = { λ a e. e ≡ Memory a };

    fn from(error: AllocError) -> Self {
        ArrayError::Memory(error)
    }
}

impl<T: Drop> From<AllocFailed<T>> for ArrayError {
    ghost from_gives = { λ _ e. IsMemory e };

    fn from(failed: AllocFailed<T>) -> Self {
        ArrayError::Memory(AllocError::from(failed))
    }
}

impl Value {
    /// The kind of the arrays that may hold the value, if there are any.
    pub fn element_kind(&self) -> Option<ElementKind>
        ensures { result ≡ element_kind (view self.now) }
    {
        match self {
            Value::Null | Value::List(_) | Value::Map(_) | Value::Array(_) | Value::Described(_) =>
                None,
            Value::Bool(_) => Some(ElementKind::Bool),
            Value::Ubyte(_) => Some(ElementKind::Ubyte),
            Value::Ushort(_) => Some(ElementKind::Ushort),
            Value::Uint(_) => Some(ElementKind::Uint),
            Value::Ulong(_) => Some(ElementKind::Ulong),
            Value::Byte(_) => Some(ElementKind::Byte),
            Value::Short(_) => Some(ElementKind::Short),
            Value::Int(_) => Some(ElementKind::Int),
            Value::Long(_) => Some(ElementKind::Long),
            Value::Char(_) => Some(ElementKind::Char),
            Value::Timestamp(_) => Some(ElementKind::Timestamp),
            Value::Uuid(_) => Some(ElementKind::Uuid),
            Value::Binary(_) => Some(ElementKind::Binary),
            Value::String(_) => Some(ElementKind::String),
            Value::Symbol(_) => Some(ElementKind::Symbol),
        }
    }

    /// Whether an array of that kind may hold the value.
    pub fn is_of_kind(&self, kind: ElementKind) -> bool
        ensures { IsTrue result ↔ (element_kind (view self.now) ≡ Some kind) }
    {
        match self.element_kind() {
            Some(found) => same_kind(found, kind),
            None => false,
        }
    }
}

fn are_of_kind(values: &[Value], kind: ElementKind) -> bool
    ensures { IsTrue result ↔ AreOfKind kind (items_view values.now) }
{
    for value in values {
        if !value.is_of_kind(kind) {
            return false;
        }
    }
    true
}

impl ValueArray {
    /// No values of that kind; takes no memory.
    pub fn new(alloc: Global, kind: ElementKind) -> Self
        ensures { result ≡ (kind, no_items) }
    {
        ValueArray {
            kind,
            values: Vec::new(alloc),
        }
    }

    /// Those values: none exactly where one is of another kind.
    pub fn from_vec(kind: ElementKind, values: Vec<Value>) -> Option<Self>
        ensures some { IfSome result (λ a. a ≡ (kind, items_view values.items)) }
        ensures none { IsNone result → AreOfKind kind (items_view values.items) → ⊥ }
    {
        if are_of_kind(&values, kind) {
            Some(ValueArray { kind, values })
        } else {
            None
        }
    }

    /// The kind of all elements.
    pub fn kind(&self) -> ElementKind
        ensures { result ≡ self.now.0 }
    {
        self.kind
    }

    /// The elements, lent.
    pub fn as_slice(&self) -> &[Value]
        ensures value { items_view result.now ≡ self.now.1 }
        ensures kind { AreOfKind self.now.0 self.now.1 }
    {
        &self.values
    }

    /// The number of elements.
    pub fn len(&self) -> usize
        ensures { result ≡ count self.now.1 }
    {
        self.values.len()
    }

    /// Whether there are none.
    pub fn is_empty(&self) -> bool
        ensures { IsTrue result ↔ (self.now.1 ≡ no_items) }
    {
        self.values.is_empty()
    }

    /// Adds a value at the end: `OtherKind` exactly where it is of another kind, unless memory runs out.
    /// An error leaves the array as it was.
    pub fn push(&mut self, value: Value) -> Result<(), ArrayError>
        ensures ok { OnOk result (self.new ≡ (self.old.0, pushed self.old.1 (view value))) }
        ensures kind { OnOk result (element_kind (view value) ≡ Some self.old.0) }
        ensures refused { IsErrOf result ArrayError.OtherKind → element_kind (view value) ≡ Some self.old.0 → ⊥ }
        ensures err { OnErr result (self.new ≡ self.old) }
    {
        if !value.is_of_kind(self.kind) {
            return Err(ArrayError::OtherKind);
        }
        self.values.push(value)?;
        Ok(())
    }
}
