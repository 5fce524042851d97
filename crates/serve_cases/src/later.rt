//! A link in memory whose input comes in pieces.
ghost use Rattle.std.specs.Prelude.{◌≡◌, None, ⊤};
ghost use Rattle.amqp_wire.specs.Link.{HasCause};

use amqp_net::{LinkFault, WaitLink};
use amqp_wire::link::{Link, LinkRead, LinkWrite};
use amqp_wire::pipe::Pipe;
use std::alloc::Global;
use std::collections::VecDeque;

/// A link in memory that is given one piece of input at each wait. It tells nothing of its bytes, and counts its faults as a socket
/// does: the end of the input is one, and so is a wait for which no piece is left.
#[derive(Drop)]
pub struct LaterPipe {
    pipe: Pipe,
    /// The pieces that are still to come.
    later: VecDeque<Vec<u8>>,
    /// Whether the input ends behind the last piece.
    ends: bool,
    /// The reads, writes and waits that fail, counted together from 0.
    failing: Vec<u64>,
    calls: u64,
    faults: u64,
    /// How many reads have given bytes.
    reads: u64,
    /// The direction of the first fault, where there was one.
    first: LinkFault,
}

impl LaterPipe {
    /// A link with these pieces to come, of which the calls of these numbers fail.
    pub fn new(alloc: Global, later: VecDeque<Vec<u8>>, ends: bool, failing: Vec<u64>) -> Self {
        LaterPipe {
            pipe: Pipe::new(alloc),
            later,
            ends,
            failing,
            calls: 0,
            faults: 0,
            reads: 0,
            first: LinkFault::Writing,
        }
    }

    /// All output so far.
    pub fn output(&self) -> &[u8] {
        self.pipe.output()
    }

    /// Counts a call; whether it is to fail.
    fn next_fails(&mut self) -> bool
        ensures { self.new.faults ≡ self.old.faults }
    {
        let fails = self.failing.contains(&self.calls);
        self.calls = self.calls.saturating_add(1);
        fails
    }

    fn count_fault(&mut self, fault: LinkFault)
        ensures { HasCause self.old.faults self.new.faults ⊤ }
    {
        if self.faults == 0 {
            self.first = fault;
        }
        self.faults = self.faults.saturating_add(1);
    }

    /// Whether no more input comes.
    fn has_ended(&self) -> bool {
        self.ends && self.later.is_empty()
    }
}

impl Link for LaterPipe {
    ghost input = { λ _. None };

    ghost ready = { λ _. None };

    ghost output = { λ _. None };

    ghost mark = { λ _. 0 };

    ghost can_fill = { λ _. ⊤ };

    ghost can_end = { λ _. ⊤ };

    ghost faults = { λ p. p.faults };

    fn read(&mut self, buf: &mut [u8]) -> LinkRead {
        if self.next_fails() {
            self.count_fault(LinkFault::Reading);
            return LinkRead::Failed;
        }
        match self.pipe.read(buf) {
            LinkRead::Bytes(count) => {
                self.reads = self.reads.saturating_add(1);
                LinkRead::Bytes(count)
            }
            _ if self.has_ended() && !buf.is_empty() => {
                self.count_fault(LinkFault::Reading);
                LinkRead::End
            }
            _ => LinkRead::Empty,
        }
    }

    fn write(&mut self, piece: &[u8]) -> LinkWrite {
        if self.next_fails() {
            self.count_fault(LinkFault::Writing);
            return LinkWrite::Failed;
        }
        match self.pipe.write(piece) {
            LinkWrite::Took(count) => LinkWrite::Took(count),
            _ => LinkWrite::Memory,
        }
    }
}

impl WaitLink for LaterPipe {
    fn wait(&mut self) -> bool {
        if !self.next_fails() {
            if self.has_ended() {
                return true;
            }
            if let Some(piece) = self.later.pop_front() {
                if self.pipe.give(piece.as_slice()).is_ok() {
                    return true;
                }
            }
        }
        self.count_fault(LinkFault::Writing);
        false
    }

    fn reads(&self) -> u64 {
        self.reads
    }

    fn fault(&self) -> Option<LinkFault> {
        if self.faults > 0 {
            Some(self.first)
        } else {
            None
        }
    }
}
