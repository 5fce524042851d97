//! Names of calls, in order.
ghost use Rattle.std.specs.Prelude.{◌≡◌, ◌∷◌, [], ◌++◌, length, IfOk, OnOk, OnErr};

use std::alloc::{AllocError, Global};
use std::marker::Model;

/// Names of calls in order, seen as the list of them.
#[derive(Debug)]
pub struct NameList {
    names: Vec<u64>,
}

// The list is let go by a call, so that no caller sees where it lies.
impl Drop for NameList {
    fn drop(self) {
        let NameList { names } = self;
        drop(names);
    }
}

impl Model for NameList {
    ghost use Rattle.std.specs.Prelude.{List, ℕ};

    ghost Value = { List ℕ };

    ghost view = { λ l. l.names.items };
}

impl NameList {
    /// No names; takes no memory.
    pub fn new(alloc: Global) -> Self
        ensures { result ≡ [] }
    {
        NameList {
            names: Vec::new(alloc),
        }
    }

    /// The number of names.
    pub fn len(&self) -> usize
        ensures { result ≡ length self.now }
    {
        self.names.len()
    }

    /// The names, lent.
    pub fn as_slice(&self) -> &[u64]
        ensures { result.now ≡ self.now }
    {
        self.names.as_slice()
    }

    /// Adds a name at the end; want of memory leaves the list as it was.
    pub fn push(&mut self, name: u64) -> Result<(), AllocError>
        ensures ok { OnOk result (self.new ≡ self.old ++ name ∷ []) }
        ensures err { OnErr result (self.new ≡ self.old) }
    {
        self.names.push(name)?;
        Ok(())
    }

    /// A copy; the one error is want of memory.
    pub fn try_clone(&self, alloc: Global) -> Result<Self, AllocError>
        ensures { IfOk result (λ l. l ≡ self.now) }
    {
        let names = Vec::from_slice(alloc, self.names.as_slice())?;
        Ok(NameList { names })
    }
}
