//! The handles of this end (OASIS AMQP 1.0, part 2, section 2.6.2).
ghost use Rattle.std.specs.Prelude.{◌≡◌, ◌≤◌, nat_eq, [], OnOk, OnErr, IfSome, IfNone};
ghost use Rattle.std.specs.Map.{lookup};
ghost use Rattle.std.specs.Option.{option_copied};
ghost use Rattle.indexmap.specs.IndexMap.{insert_entry, swap_remove_entry};
ghost use Rattle.amqp_link_tables.specs.Handles.{IsLowestFree, lowest_free};

use amqp_composites::modes::Role;
use amqp_text::Text;
use indexmap::IndexMap;
use std::alloc::{AllocError, Global};
use std::cmp::Reverse;
use std::collections::BinaryHeap;
use std::marker::Model;

/// What a handle of this end stands for.
pub struct Held {
    /// The name under which the link is called.
    pub link: u64,
    /// The role of this end on it.
    pub role: Role,
    /// The name of the link (section 2.6.1).
    pub name: Text,
}

/// What the handles of this end stand for. The lowest free one is found, taken and given back in a time that grows with the logarithm of
/// how many there are.
pub struct Handles {
    /// What each handle that is in use stands for.
    held: IndexMap<u32, Held>,
    /// No handle from here on was ever used.
    fresh: u64,
    /// The handles below that are free, the lowest first, with room for all.
    freed: BinaryHeap<Reverse<u32>>,
}

impl Model for Handles {
    ghost use Rattle.std.specs.Prelude.{ℕ, List};
    ghost use Rattle.amqp_link_tables.specs.declared.handles.Held.{Held};

    ghost Value = { List (ℕ × Held) };

    ghost use Rattle.amqp_link_tables.specs.Kept.{IsSound};

    ghost view = { λ h. h.held.entries };

    ghost invariant = { IsSound };
}

// Let go by a call.
impl Drop for Handles {
    fn drop(self) {
        let Handles {
            held,
            fresh: _,
            freed,
        } = self;
        drop(held);
        drop(freed);
    }
}

impl Drop for Held {
    fn drop(self) {
        let Held {
            link: _,
            role: _,
            name,
        } = self;
        drop(name);
    }
}

impl Handles {
    /// No handle is in use; takes no memory.
    pub(crate) fn new(alloc: Global) -> Self
        ensures { result ≡ [] }
    {
        Handles {
            held: IndexMap::new(alloc),
            fresh: 0,
            freed: BinaryHeap::new(alloc),
        }
    }

    /// What that handle stands for.
    pub(crate) fn at(&self, handle: u32) -> Option<&Held>
        ensures { option_copied result ≡ lookup (nat_eq handle) self.now }
    {
        self.held.get(&handle)
    }

    /// The lowest handle that is free.
    fn lowest(&self) -> u64
        ensures { IsLowestFree result self.now }
    {
        match self.freed.peek() {
            Some(Reverse(handle)) => u64::from(*handle),
            None => self.fresh,
        }
    }

    /// The lowest handle that is free, if it is not above that one.
    pub(crate) fn lowest_up_to(&self, handle_max: u32) -> Option<u32>
        ensures lowest { result ≡ lowest_free handle_max self.now }
        ensures free { IfSome result (λ handle. IsLowestFree handle self.now) }
        ensures within { IfSome result (λ handle. handle ≤ handle_max) }
    {
        let lowest = self.lowest();
        if lowest <= u64::from(handle_max) {
            Some(lowest as u32)
        } else {
            None
        }
    }

    /// The lowest handle that is free stands for a link. Want of memory, the one error, leaves all as it was.
    pub(crate) fn occupy(&mut self, handle: u32, held: Held) -> Result<(), AllocError>
        requires { IsLowestFree handle self.old }
        ensures ok { OnOk result (self.new ≡ insert_entry nat_eq self.old handle held) }
        ensures err { OnErr result (self.new ≡ self.old) }
    {
        self.freed.reserve(self.held.len() + 1)?;
        self.held.insert(handle, held)?;
        match self.freed.pop() {
            Some(Reverse(_)) => {}
            None => self.fresh += 1,
        }
        Ok(())
    }

    /// The handle is free. The answer is what it has stood for.
    pub(crate) fn free(&mut self, handle: u32) -> Option<Held>
        ensures held { result ≡ lookup (nat_eq handle) self.old }
        ensures none { IfNone result (self.new ≡ self.old) }
        ensures gone { lookup (nat_eq handle) self.new ≡ None }
        ensures left { self.new ≡ swap_remove_entry (nat_eq handle) self.old }
    {
        let held = self.held.swap_remove(&handle)?;
        let _ = self.freed.push(Reverse(handle));
        Some(held)
    }
}
