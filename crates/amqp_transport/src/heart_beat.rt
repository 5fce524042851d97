//! The heartbeat of what is written (OASIS AMQP 1.0, part 2, section 2.4.5).
ghost use Rattle.std.specs.Prelude.{◌≡◌, ◌<◌, ◌↔◌, IsTrue, None, Some, if◌then◌else◌};
ghost use Rattle.amqp_transport.specs.Clocks.{IsDue, IsNew, periods};

/// When the next empty frame is due: at the start, and then at each whole number of periods behind it. Beats that were missed
/// are left out.
#[derive(Clone, Copy, Debug, PartialEq, Eq)]
pub struct HeartBeat {
    period: u64,
    start: u64,
    last: Option<u64>,
}

impl HeartBeat {
    /// No beat at any moment.
    pub fn never() -> Self
        ensures { result ≡ record { period = 0; start = 0; last = None } }
    {
        HeartBeat {
            period: 0,
            start: 0,
            last: None,
        }
    }

    /// Beats from that moment on, one each period, in milliseconds; a period of 0 has none.
    pub fn new(period: u64, at: u64) -> Self
        ensures { result ≡ record { period = period; start = at; last = None } }
    {
        HeartBeat {
            period,
            start: at,
            last: None,
        }
    }

    /// Whether a beat is due at that moment; then it counts as given.
    pub fn poll(&mut self, at: u64) -> bool
        ensures due { IsTrue result ↔ IsDue self.old at }
        ensures beat { self.new ≡ (if result then record self.old { last = Some (periods self.old at) } else self.old) }
    {
        if self.period == 0 || at < self.start {
            return false;
        }
        let passed = (at - self.start) / self.period;
        if !is_new(passed, self.last) {
            return false;
        }
        self.last = Some(passed);
        true
    }
}

fn is_new(passed: u64, last: Option<u64>) -> bool
    ensures { IsTrue result ↔ IsNew passed last }
{
    match last {
        Some(last) => last < passed,
        None => true,
    }
}
