//! The links of one session (OASIS AMQP 1.0, part 2, sections 2.6.2, 2.6.4 and 2.7.3).
ghost use Rattle.std.specs.Prelude.{◌≡◌, ◌≤◌, IfOk, OnOk};
ghost use Rattle.amqp_link_tables.specs.Handles.{IsLowestFree};
ghost use Rattle.amqp_link_tables.specs.Calls.{link_at, link_named, named, unnamed, attached, allocation, allocated, IsAnswer, ButForMemory, released, joined, link_from, parted, spending, is_spent};
ghost use Rattle.amqp_link_tables.specs.State.{seen, no_links};

use crate::error::AllocLinkError;
use crate::handles::{Handles, Held};
use amqp_composites::modes::Role;
use amqp_text::Text;
use indexmap::{IndexMap, IndexSet};
use std::alloc::{AllocError, Global};

/// The links of one session, which are known by the names under which they are called: by the handles of both ends, and by their names in
/// their roles.
pub struct LinkTable {
    alloc: Global,
    /// The handles of this end.
    handles: Handles,
    /// The links at which this end sends, by their names.
    senders: IndexMap<Text, u64>,
    /// The links at which this end receives, by their names.
    receivers: IndexMap<Text, u64>,
    /// The links by the handles of the peer.
    remotes: IndexMap<u32, u64>,
    /// The names that no attach may use again.
    spent: IndexSet<Text>,
}

// The table is let go by a call, so that no caller sees what stands in it.
impl Drop for LinkTable {
    fn drop(self) {
        let LinkTable {
            alloc: _,
            handles,
            senders,
            receivers,
            remotes,
            spent,
        } = self;
        drop(handles);
        drop(senders);
        drop(receivers);
        drop(remotes);
        drop(spent);
    }
}

impl LinkTable {
    /// No links; takes no memory.
    pub fn new(alloc: Global) -> Self
        ensures { seen result ≡ no_links }
    {
        LinkTable {
            alloc,
            handles: Handles::new(alloc),
            senders: IndexMap::new(alloc),
            receivers: IndexMap::new(alloc),
            remotes: IndexMap::new(alloc),
            spent: IndexSet::new(alloc),
        }
    }

    /// The link of that handle of this end.
    pub fn link_at(&self, handle: u32) -> Option<u64>
        ensures { result ≡ link_at handle (seen self.now) }
    {
        let held = self.handles.at(handle)?;
        Some(held.link)
    }

    /// The link of that name at which this end has that role.
    pub fn link_named(&self, name: &Text, role: Role) -> Option<u64>
        ensures { result ≡ link_named name.now role (seen self.now) }
    {
        match role {
            Role::Sender => self.senders.get(name).copied(),
            Role::Receiver => self.receivers.get(name).copied(),
        }
    }

    /// A link of that name and role gets the lowest handle of this end that is free: it is free, not above `handle_max`, and none below
    /// it is free. Refused where a link of that name and role is there (section 2.6.4), else where no handle up to `handle_max` is free;
    /// then nothing changes. The other error is want of memory.
    pub fn allocate(
        &mut self,
        name: Text,
        role: Role,
        link: u64,
        handle_max: u32,
    ) -> Result<u32, AllocLinkError>
        ensures answer { IsAnswer result (allocation name role handle_max (seen self.old)) }
        ensures state { ButForMemory result (seen self.new ≡ allocated result name role link (seen self.old)) }
        ensures free { IfOk result (λ handle. IsLowestFree handle (seen self.old).handles) }
        ensures within { IfOk result (λ handle. handle ≤ handle_max) }
    {
        if self.link_named(&name, role).is_some() {
            drop(name);
            return Err(AllocLinkError::DuplicatedLinkName);
        }
        let Some(handle) = self.handles.lowest_up_to(handle_max) else {
            drop(name);
            return Err(AllocLinkError::HandleMaxReached);
        };
        self.attach(handle, name, role, link)?;
        Ok(handle)
    }

    /// A link stands at that handle, and under its name.
    fn attach(&mut self, handle: u32, name: Text, role: Role, link: u64) -> Result<(), AllocError>
        requires { IsLowestFree handle (seen self.old).handles }
        ensures { OnOk result (seen self.new ≡ attached handle name role link (seen self.old)) }
    {
        let known = name.try_clone(self.alloc)?;
        self.handles.occupy(handle, Held { link, role, name })?;
        self.enter_name(known, role, link)
    }

    fn enter_name(&mut self, name: Text, role: Role, link: u64) -> Result<(), AllocError>
        ensures { OnOk result (seen self.new ≡ named name role link (seen self.old)) }
    {
        match role {
            Role::Sender => self.senders.insert(name, link)?,
            Role::Receiver => self.receivers.insert(name, link)?,
        };
        Ok(())
    }

    /// The handle of this end is free, and so is the name in its role of the link that it stood for.
    pub fn release(&mut self, handle: u32)
        ensures state { seen self.new ≡ released handle (seen self.old) }
        ensures free { link_at handle (seen self.new) ≡ None }
    {
        if let Some(held) = self.handles.free(handle) {
            self.remove_name(held);
        }
    }

    /// The name is free in its role.
    fn remove_name(&mut self, held: Held)
        ensures { seen self.new ≡ unnamed held.name held.role (seen self.old) }
    {
        match held.role {
            Role::Sender => self.senders.swap_remove(&held.name),
            Role::Receiver => self.receivers.swap_remove(&held.name),
        };
        drop(held);
    }

    /// The link has that handle of the peer. The one error is want of memory.
    pub fn join(&mut self, remote: u32, link: u64) -> Result<(), AllocError>
        ensures { OnOk result (seen self.new ≡ joined remote link (seen self.old)) }
    {
        self.remotes.insert(remote, link)?;
        Ok(())
    }

    /// The link of that handle of the peer.
    pub fn link_from(&self, remote: u32) -> Option<u64>
        ensures { result ≡ link_from remote (seen self.now) }
    {
        self.remotes.get(&remote).copied()
    }

    /// The handle of the peer is free.
    pub fn part(&mut self, remote: u32)
        ensures state { seen self.new ≡ parted remote (seen self.old) }
        ensures free { link_from remote (seen self.new) ≡ None }
    {
        self.remotes.swap_remove(&remote);
    }

    /// No attach may use that name again. The one error is want of memory.
    pub fn spend(&mut self, name: Text) -> Result<(), AllocError>
        ensures { OnOk result (seen self.new ≡ spending name (seen self.old)) }
    {
        self.spent.insert(name)?;
        Ok(())
    }

    /// Whether no attach may use that name again.
    pub fn is_spent(&self, name: &Text) -> bool
        ensures { result ≡ is_spent name.now (seen self.now) }
    {
        self.spent.contains(name)
    }
}
