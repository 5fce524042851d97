//! Described values (OASIS AMQP 1.0, part 1, section 1.1.2).
ghost use Rattle.std.specs.Prelude.{◌≡◌, IfOk};
ghost use Rattle.amqp_data.specs.View.{view};

use crate::value::{Described, DescribedParts, Value};
use std::alloc::{AllocError, Global};

impl Described {
    /// A value behind its descriptor; the one error is want of memory.
    pub fn new(alloc: Global, descriptor: Value, value: Value) -> Result<Self, AllocError>
        ensures { IfOk result (λ d. d ≡ (view descriptor, view value)) }
    {
        let parts = Box::new(alloc, DescribedParts { descriptor, value })?;
        Ok(Described { parts })
    }

    /// The descriptor, lent.
    pub fn descriptor(&self) -> &Value
        ensures { view result.now ≡ self.now.0 }
    {
        &self.parts.descriptor
    }

    /// The value, lent.
    pub fn value(&self) -> &Value
        ensures { view result.now ≡ self.now.1 }
    {
        &self.parts.value
    }
}
