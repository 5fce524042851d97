//! The idle time of what is read (OASIS AMQP 1.0, part 2, section 2.4.5).
ghost use Rattle.std.specs.Prelude.{◌≡◌, ◌↔◌, IsTrue};
ghost use Rattle.amqp_transport.specs.Clocks.{HasElapsed};

/// When the last frame came, and how long none may come.
#[derive(Clone, Copy, Debug, PartialEq, Eq)]
pub struct IdleClock {
    idle: u64,
    since: u64,
}

impl IdleClock {
    /// A clock that starts at that moment; an idle time of 0 never runs out.
    pub fn new(idle: u64, at: u64) -> Self
        ensures { result ≡ record { idle = idle; since = at } }
    {
        IdleClock { idle, since: at }
    }

    /// Starts anew, as a frame came.
    pub fn restart(&mut self, at: u64)
        ensures { self.new ≡ record self.old { since = at } }
    {
        self.since = at;
    }

    /// The idle time, in milliseconds; 0 is none.
    pub fn idle(&self) -> u64
        ensures { result ≡ self.now.idle }
    {
        self.idle
    }

    /// Whether the idle time has run out by that moment.
    pub fn has_elapsed(&self, at: u64) -> bool
        ensures { IsTrue result ↔ HasElapsed self.now at }
    {
        self.idle > 0 && self.since <= at && at - self.since >= self.idle
    }
}
