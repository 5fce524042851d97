//! The Attaches of the peer that wait, and what was read behind them (OASIS AMQP 1.0, part 2, section 2.6.3).
ghost use Rattle.std.specs.Prelude.{◌≡◌, nat_eq, [], ◌∷◌, OnOk};
ghost use Rattle.indexmap.specs.IndexMap.{insert_entry};
ghost use Rattle.amqp_session_links.specs.Incoming.{attach_pushed, first_of, attach_taken, kept, early_of, early_taken, early_put};

use crate::inputs::InputQueue;
use crate::place::SessionLinks;
use amqp_performatives::attach::Attach;
use amqp_session::LinkInput;
use std::alloc::AllocError;

impl SessionLinks {
    /// An Attach of the peer waits behind all others. The one error is want of memory.
    pub fn push_attach(&mut self, attach: Attach) -> Result<(), AllocError>
        ensures { OnOk result (self.new ≡ attach_pushed attach self.old) }
    {
        self.attaches.push_back(attach)?;
        Ok(())
    }

    /// Takes the first Attach of the peer that waits.
    pub fn take_attach(&mut self) -> Option<Attach>
        ensures attach { result ≡ first_of self.old.attaches }
        ensures state { self.new ≡ attach_taken self.old }
    {
        self.attaches.pop_front()
    }

    /// Keeps what was read of a handle of the peer that no link has. The one error is want of memory.
    pub fn keep(&mut self, remote: u32, input: LinkInput) -> Result<(), AllocError>
        ensures { OnOk result (self.new ≡ kept remote input self.old) }
    {
        match self.early.get_mut(&remote) {
            Some(queue) => queue.push(input),
            None => self.keep_first(remote, input),
        }
    }

    fn keep_first(&mut self, remote: u32, input: LinkInput) -> Result<(), AllocError>
        ensures { OnOk result (self.new ≡ record self.old { early = insert_entry nat_eq self.old.early remote (input ∷ []) }) }
    {
        let mut queue = InputQueue::new(self.alloc);
        queue.push(input)?;
        self.early.insert(remote, queue)?;
        Ok(())
    }

    /// Takes what was read of a handle of the peer.
    pub fn take_early(&mut self, remote: u32) -> InputQueue
        ensures queue { result ≡ early_of remote self.old }
        ensures state { self.new ≡ early_taken remote self.old }
    {
        match self.early.swap_remove(&remote) {
            Some(queue) => queue,
            None => InputQueue::new(self.alloc),
        }
    }

    /// Keeps what is left of that. The one error is want of memory.
    pub fn put_early(&mut self, remote: u32, queue: InputQueue) -> Result<(), AllocError>
        ensures { OnOk result (self.new ≡ early_put remote queue self.old) }
    {
        if queue.is_empty() {
            drop(queue);
            return Ok(());
        }
        self.early.insert(remote, queue)?;
        Ok(())
    }
}
