//! Which channels of this end sessions have (OASIS AMQP 1.0, part 2, section 2.5.1).
ghost use Rattle.std.specs.Prelude.{◌≡◌, ◌≤◌, [], false, length, slice_index_or, slice_set, OnOk, OnErr};
ghost use Rattle.amqp_engine.specs.Seats.{first_free, seat_taken};

use std::alloc::{AllocError, Global};
use std::cmp::Reverse;
use std::collections::BinaryHeap;
use std::marker::Model;

/// Of each channel of this end, from 0 on, whether a session has it. The lowest free one is at hand, and is taken and given back in a
/// time that grows with the logarithm of how many are free below the highest that was taken.
pub struct Seats {
    /// Of each channel that was ever taken, whether it is now.
    taken: Vec<bool>,
    /// Those of them that are free, the lowest first, with room for all.
    freed: BinaryHeap<Reverse<u16>>,
}

impl Model for Seats {
    ghost use Rattle.std.specs.Prelude.{List, Bool};

    ghost Value = { List Bool };

    ghost use Rattle.amqp_engine.specs.Kept.{IsSound};

    ghost view = { λ s. s.taken.items };

    ghost invariant = { IsSound };
}

// Let go by a call.
impl Drop for Seats {
    fn drop(self) {
        let Seats { taken, freed } = self;
        drop(taken);
        drop(freed);
    }
}

impl Seats {
    /// No channel is taken; takes no memory.
    pub(crate) fn new(alloc: Global) -> Self
        ensures { result ≡ [] }
    {
        Seats {
            taken: Vec::new(alloc),
            freed: BinaryHeap::new(alloc),
        }
    }

    /// Whether a session has the channel.
    pub(crate) fn has(&self, channel: u16) -> bool
        ensures { result ≡ slice_index_or self.now channel false }
    {
        match self.taken.as_slice().get(usize::from(channel)) {
            Some(taken) => *taken,
            None => false,
        }
    }

    /// The lowest channel that no session has.
    pub(crate) fn lowest(&self) -> usize
        ensures { result ≡ first_free self.now }
    {
        match self.freed.peek() {
            Some(Reverse(channel)) => usize::from(*channel),
            None => self.taken.len(),
        }
    }

    /// A session has the lowest channel that was free. Want of memory, the one error, leaves all as it was.
    pub(crate) fn take(&mut self, channel: usize) -> Result<(), AllocError>
        requires { channel ≡ first_free self.old }
        ensures ok { OnOk result (self.new ≡ seat_taken self.old channel) }
        ensures err { OnErr result (self.new ≡ self.old) }
    {
        match self.freed.pop() {
            Some(Reverse(_)) => {
                self.taken[channel] = true;
                Ok(())
            }
            None => {
                self.freed.reserve(self.taken.len() + 1)?;
                self.taken.push(true)?;
                Ok(())
            }
        }
    }

    /// No session has the channel; takes no memory.
    pub(crate) fn free(&mut self, channel: u16)
        ensures { self.new ≡ slice_set self.old channel false }
    {
        if self.has(channel) {
            self.taken[usize::from(channel)] = false;
            let _ = self.freed.push(Reverse(channel));
        }
    }
}
