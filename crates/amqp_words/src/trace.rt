//! What steps came to.
ghost use Rattle.std.specs.Prelude.{◌≡◌, [], ◌∷◌, ◌++◌, length, OnOk, OnErr};

use crate::reply::ReplyList;
use amqp_text::Binary;
use std::alloc::{AllocError, Global};
use std::marker::Model;

/// What one step came to.
#[derive(Debug)]
pub struct Entry {
    /// The answers that the step brought, in the order in which they came.
    pub replies: ReplyList,
    /// The bytes that the step's end wrote.
    pub wrote: Binary,
}

// An entry is let go by a call, so that no caller sees its parts.
impl Drop for Entry {
    fn drop(self) {
        let Entry { replies, wrote } = self;
        drop(replies);
        drop(wrote);
    }
}

/// Entries in order, seen as the list of them.
#[derive(Debug)]
pub struct EntryList {
    entries: Vec<Entry>,
}

// The list is let go by a call, so that no caller sees what it holds.
impl Drop for EntryList {
    fn drop(self) {
        let EntryList { entries } = self;
        drop(entries);
    }
}

impl Model for EntryList {
    ghost use Rattle.std.specs.Prelude.{List};
    ghost use Rattle.amqp_words.specs.declared.trace.Entry.{Entry};

    ghost Value = { List Entry };

    ghost use Rattle.std.specs.Coded.{codes};
    ghost use Rattle.amqp_fields.specs.contracts.map.FieldMap as map;

    ghost coded = { Prim.hlevel (codes, map.the_row.coded) };

    ghost view = { λ e. e.entries.items };
}

impl EntryList {
    /// No entries; takes no memory.
    pub fn new(alloc: Global) -> Self
        ensures { result ≡ [] }
    {
        EntryList {
            entries: Vec::new(alloc),
        }
    }

    /// The number of entries.
    pub fn len(&self) -> usize
        ensures { result ≡ length self.now }
    {
        self.entries.len()
    }

    /// The entries, lent.
    pub fn as_slice(&self) -> &[Entry]
        ensures { result.now ≡ self.now }
    {
        self.entries.as_slice()
    }

    /// Adds an entry at the end; want of memory leaves the list as it was.
    pub fn push(&mut self, entry: Entry) -> Result<(), AllocError>
        ensures ok { OnOk result (self.new ≡ self.old ++ entry ∷ []) }
        ensures err { OnErr result (self.new ≡ self.old) }
    {
        self.entries.push(entry)?;
        Ok(())
    }
}

/// One entry for each step made, in order.
#[derive(Debug, Drop)]
pub struct Trace {
    /// The entries.
    pub entries: EntryList,
}
