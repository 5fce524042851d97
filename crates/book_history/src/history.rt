//! Histories.
ghost use Rattle.std.specs.Prelude.{◌≡◌, ◌+◌, ◌≤◌, ◌++◌, ◌∷◌, [], length, OnOk};

use crate::entry::HistoryEntry;
use std::alloc::{AllocError, Global};
use std::marker::Model;

/// The calls of a book, in their order.
pub struct History {
    entries: Vec<HistoryEntry>,
}

// A history is let go by a call, so that no caller sees what it holds.
impl Drop for History {
    fn drop(self) {
        let History { entries } = self;
        drop(entries);
    }
}

impl Model for History {
    ghost use Rattle.std.specs.Prelude.{vec_len, vec_capacity, ◌-◌};
    ghost use Rattle.book_history.specs.History.{Log};

    ghost Value = { Log };

    ghost use Rattle.std.specs.Coded.{codes};
    ghost use Rattle.amqp_fields.specs.contracts.map.FieldMap as map;

    ghost coded = { Prim.hlevel (codes, map.the_row.coded) };

    ghost view = { λ a. record { events = a.entries.items; room = vec_capacity a.entries - vec_len a.entries } };
}

impl History {
    /// A history without entries; takes no memory.
    pub fn new(alloc: Global) -> History
        ensures { result.events ≡ [] }
    {
        History {
            entries: Vec::new(alloc),
        }
    }

    /// The entries, in the order of the calls.
    pub fn entries(&self) -> &[HistoryEntry]
        ensures { result.now ≡ self.now.events }
    {
        self.entries.as_slice()
    }

    /// How many entries there are.
    pub fn len(&self) -> usize
        ensures { result ≡ length self.now.events }
    {
        self.entries.len()
    }

    /// Makes room for one entry more; the one error is want of memory.
    pub fn reserve_one(&mut self) -> Result<(), AllocError>
        ensures events { self.new.events ≡ self.old.events }
        ensures room { OnOk result (1 ≤ self.new.room) }
    {
        self.entries.reserve(1)
    }

    /// Adds an entry at the end, in room that is there.
    pub fn push(&mut self, entry: HistoryEntry)
        requires { 1 ≤ self.old.room }
        ensures { self.new.events ≡ self.old.events ++ entry ∷ [] }
    {
        let pushed = self.entries.push(entry);
        prove!(pushed.is_ok());
        let _ = pushed;
    }
}
