//! How far a run is, told on standard error while it takes long.
use amqp_served::{Clocked, Moments};
use std::rt::Clock;

/// How often the counter is written, in milliseconds; before the first time nothing is.
const PERIOD: u64 = 1_000;

/// The moments of a run that can be told how far it is.
pub trait Progress: Moments {
    /// One message more was sent or received.
    fn count(&mut self);

    /// Something else is written now.
    fn clear(&mut self);
}

/// The system's clock. Where that is asked for, how many messages were sent or received is written on standard error once a second, over
/// and over in one line of a terminal.
#[derive(Drop)]
pub struct Counted<'a, R: Clock + Eprint> {
    rt: &'a R,
    clock: Clocked<'a, R>,
    /// Whether anything is written.
    is_shown: bool,
    /// Whether the counter stands on the terminal.
    is_there: bool,
    count: u64,
    /// When the counter is written next.
    next: u64,
}

impl<'a, R: Clock + Eprint> Counted<'a, R> {
    /// No message was sent or received yet.
    pub fn new(rt: &'a R, clock: Clocked<'a, R>, is_shown: bool) -> Self {
        Counted {
            rt,
            clock,
            is_shown,
            is_there: false,
            count: 0,
            next: PERIOD,
        }
    }

    /// Writes the counter where it is time to.
    fn tell(&mut self) {
        if !self.is_shown {
            return;
        }
        let now = self.clock.now();
        if now < self.next {
            return;
        }
        self.next = now.saturating_add(PERIOD);
        let count = self.count;
        let _ = eprint!(self.rt; "\r{count}");
        self.is_there = true;
    }
}

impl<R: Clock + Eprint> Moments for Counted<'_, R> {
    fn now(&mut self) -> u64 {
        self.clock.now()
    }

    /// It is asked before each wait, so the counter is written while nothing comes too.
    fn is_over(&mut self) -> bool {
        self.tell();
        self.clock.is_over()
    }
}

impl<R: Clock + Eprint> Progress for Counted<'_, R> {
    fn count(&mut self) {
        self.count = self.count.saturating_add(1);
        self.tell();
    }

    /// Takes the counter from the terminal, so that the next text begins a line.
    fn clear(&mut self) {
        if self.is_there {
            let _ = eprint!(self.rt; "\r\x1b[K");
            self.is_there = false;
        }
    }
}
