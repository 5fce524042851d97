//! Copies of what fields hold: the one error is want of memory.
ghost use Rattle.std.specs.Prelude.{◌≡◌, IfOk};

use amqp_data::{Binary, Symbol, SymbolList, Text, ValueList};
use std::alloc::{AllocError, Global};

/// A type whose values are copied by a call that can want memory.
pub trait TryClone: Sized {
    /// A copy; the one error is want of memory.
    fn try_clone(&self, alloc: Global) -> Result<Self, AllocError>
        ensures { IfOk result (λ copy. copy ≡ self.now) };
}

impl TryClone for Binary {
    fn try_clone(&self, alloc: Global) -> Result<Self, AllocError> {
        Binary::try_clone(self, alloc)
    }
}

impl TryClone for Text {
    fn try_clone(&self, alloc: Global) -> Result<Self, AllocError> {
        Text::try_clone(self, alloc)
    }
}

impl TryClone for Symbol {
    fn try_clone(&self, alloc: Global) -> Result<Self, AllocError> {
        Symbol::try_clone(self, alloc)
    }
}

impl TryClone for SymbolList {
    fn try_clone(&self, alloc: Global) -> Result<Self, AllocError> {
        SymbolList::try_clone(self, alloc)
    }
}

impl TryClone for ValueList {
    fn try_clone(&self, alloc: Global) -> Result<Self, AllocError> {
        ValueList::try_clone(self, alloc)
    }
}

/// What is absent is absent in the copy.
impl<T: TryClone + Drop> TryClone for Option<T> {
    fn try_clone(&self, alloc: Global) -> Result<Self, AllocError> {
        match self {
            Some(value) => {
                let copy = value.try_clone(alloc)?;
                Ok(Some(copy))
            }
            None => Ok(None),
        }
    }
}

/// A copy of each, in the same order; the one error is want of memory.
pub fn copied_all<T: TryClone + Drop>(alloc: Global, values: &[T]) -> Result<Vec<T>, AllocError>
    ensures { IfOk result (λ copies. copies.items ≡ values.now) }
{
    let mut copies = Vec::with_capacity(alloc, values.len())?;
    for value in values {
        let copy = value.try_clone(alloc)?;
        copies.push(copy)?;
    }
    Ok(copies)
}
