//! Lists of values (OASIS AMQP 1.0, part 1, section 1.6.22).
ghost use Rattle.std.specs.Prelude.{◌≡◌, ◌↔◌, length, IsTrue, OnOk, OnErr};
ghost use Rattle.amqp_data.specs.Data.{no_items, count, pushed};
ghost use Rattle.amqp_data.specs.View.{view, items_view};

use crate::value::{Value, ValueList};
use std::alloc::{AllocError, Global};

impl ValueList {
    /// No values; takes no memory.
    pub fn new(alloc: Global) -> Self
        ensures { result ≡ no_items }
    {
        ValueList {
            values: Vec::new(alloc),
        }
    }

    /// Those values.
    pub fn from_vec(values: Vec<Value>) -> Self
        ensures { result ≡ items_view values.items }
    {
        ValueList { values }
    }

    /// The values, lent.
    pub fn as_slice(&self) -> &[Value]
        ensures { items_view result.now ≡ self.now }
    {
        &self.values
    }

    /// The number of values.
    pub fn len(&self) -> usize
        ensures { result ≡ count self.now }
    {
        self.values.len()
    }

    /// Whether there are none.
    pub fn is_empty(&self) -> bool
        ensures { IsTrue result ↔ (self.now ≡ no_items) }
    {
        self.values.is_empty()
    }

    /// Adds a value at the end; want of memory leaves the list as it was.
    pub fn push(&mut self, value: Value) -> Result<(), AllocError>
        ensures ok { OnOk result (self.new ≡ pushed self.old (view value)) }
        ensures err { OnErr result (self.new ≡ self.old) }
    {
        self.values.push(value)?;
        Ok(())
    }
}
