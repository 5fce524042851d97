//! The highest handles of the peer's links (OASIS AMQP 1.0, part 2, section 2.7.2).
ghost use Rattle.std.specs.Prelude.{◌≡◌, ◌<◌, nat_eq, OnOk};
ghost use Rattle.std.specs.Map.{lookup};
ghost use Rattle.indexmap.specs.IndexMap.{spare, insert_entry};
ghost use Rattle.amqp_engine.specs.Limits.{limits_of, no_limits, handle_of, is_above, is_beyond, holding, answered_with, announcing, announced_on, begun_on, ended_on, freed_on};

use amqp_transport::amqp_frames::FrameBody;
use indexmap::IndexMap;
use std::alloc::{AllocError, Global};

/// The highest handles that this end has announced, and where they hold.
pub struct HandleLimits {
    /// By channels of this end, the handle-max of the Begin that it sent there.
    announced: IndexMap<u16, u32>,
    /// By channels of the peer, the handle-max that holds for what comes there.
    highest: IndexMap<u16, u32>,
}

// Let go by a call.
impl Drop for HandleLimits {
    fn drop(self) {
        let HandleLimits { announced, highest } = self;
        drop(announced);
        drop(highest);
    }
}

/// The handle that a frame names.
fn handle_of(body: &FrameBody) -> Option<u32>
    ensures { result ≡ handle_of body.now }
{
    match body {
        FrameBody::Attach(attach) => Some(attach.handle),
        FrameBody::Flow(flow) => flow.handle,
        FrameBody::Transfer(transfer, _) => Some(transfer.handle),
        FrameBody::Detach(detach) => Some(detach.handle),
        _ => None,
    }
}

/// That handle-max holds for the channel.
fn set(limits: &mut IndexMap<u16, u32>, channel: u16, handle_max: u32)
    requires { 0 < spare limits.old }
    ensures { limits.new.entries ≡ insert_entry nat_eq limits.old.entries channel handle_max }
{
    let Ok(_) = limits.insert(channel, handle_max) else {
        unreachable!()
    };
}

impl HandleLimits {
    /// Nothing was announced; takes no memory.
    pub(crate) fn new(alloc: Global) -> Self
        ensures { limits_of result ≡ no_limits }
    {
        HandleLimits {
            announced: IndexMap::new(alloc),
            highest: IndexMap::new(alloc),
        }
    }

    /// Makes room for what one Begin may add. Want of memory, the one error, leaves all as it was.
    pub(crate) fn make_room(&mut self) -> Result<(), AllocError>
        ensures same { limits_of self.new ≡ limits_of self.old }
        ensures announced { OnOk result (0 < spare self.new.announced) }
        ensures highest { OnOk result (0 < spare self.new.highest) }
    {
        self.announced.reserve(1)?;
        self.highest.reserve(1)
    }

    /// Whether the frame that came on that channel of the peer names a handle above the highest.
    pub(crate) fn is_beyond(&self, remote: u16, body: &FrameBody) -> bool
        ensures { result ≡ is_beyond (limits_of self.now) remote body.now }
    {
        let (Some(highest), Some(handle)) = (self.highest.get(&remote), handle_of(body)) else {
            return false;
        };
        *highest < handle
    }

    /// This end has sent the frame on that channel of its own.
    pub(crate) fn announce(&mut self, channel: u16, body: &FrameBody)
        requires announced { 0 < spare self.old.announced }
        requires highest { 0 < spare self.old.highest }
        ensures { limits_of self.new ≡ announcing (limits_of self.old) channel body.now }
    {
        if let FrameBody::Begin(begin) = body {
            set(&mut self.announced, channel, begin.handle_max);
            if let Some(remote) = begin.remote_channel {
                set(&mut self.highest, remote, begin.handle_max);
            }
        }
    }

    /// The peer begins a session on that channel of its own, and names the channel of this end whose Begin it answers, if any.
    pub(crate) fn begin(&mut self, remote: u16, named: Option<u16>)
        requires { 0 < spare self.old.highest }
        ensures { limits_of self.new ≡ begun_on remote named (limits_of self.old) }
    {
        match self.announced_on(named) {
            Some(handle_max) => set(&mut self.highest, remote, handle_max),
            None => self.end(remote),
        }
    }

    fn announced_on(&self, named: Option<u16>) -> Option<u32>
        ensures { result ≡ announced_on named (limits_of self.now).announced }
    {
        self.announced.get(&named?).copied()
    }

    /// The peer ends its session on that channel of its own.
    pub(crate) fn end(&mut self, remote: u16)
        ensures { limits_of self.new ≡ ended_on remote (limits_of self.old) }
    {
        self.highest.swap_remove(&remote);
    }

    /// That channel of this end is free.
    pub(crate) fn free(&mut self, channel: u16)
        ensures { limits_of self.new ≡ freed_on channel (limits_of self.old) }
    {
        self.announced.swap_remove(&channel);
    }
}
