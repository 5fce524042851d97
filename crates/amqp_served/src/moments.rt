//! The moments at which an end is driven.
use std::io;
use std::rt::Clock;
use std::time::{Duration, Instant};

/// Where an end takes its moments from.
pub trait Moments {
    /// The moment now, in milliseconds from a start; never below one that was given before.
    fn now(&mut self) -> u64;

    /// Whether the time that was given is over.
    fn is_over(&mut self) -> bool;
}

/// A clock that stands at 0.
#[derive(Clone, Copy, Debug)]
pub struct Still;

impl Moments for Still {
    fn now(&mut self) -> u64 {
        0
    }

    fn is_over(&mut self) -> bool {
        false
    }
}

/// The system's clock, from when it was made.
#[derive(Drop)]
pub struct Clocked<'a, R: Clock> {
    rt: &'a R,
    start: Instant,
    last: u64,
    /// The time that is given, in milliseconds, where there is a limit.
    limit: Option<u64>,
}

impl<'a, R: Clock> Clocked<'a, R> {
    /// A clock that starts now. With a limit the time that is given is over after so many milliseconds.
    pub fn start(rt: &'a R, limit: Option<u64>) -> io::Result<Self> {
        Ok(Clocked {
            rt,
            start: Instant::now(rt)?,
            last: 0,
            limit,
        })
    }
}

/// A time in whole milliseconds.
fn milliseconds(time: Duration) -> u64 {
    time.as_secs()
        .saturating_mul(1_000)
        .saturating_add(u64::from(time.subsec_millis()))
}

impl<R: Clock> Moments for Clocked<'_, R> {
    /// A clock that cannot be read stands still.
    fn now(&mut self) -> u64 {
        if let Ok(time) = self.start.elapsed(self.rt) {
            self.last = self.last.max(milliseconds(time));
        }
        self.last
    }

    fn is_over(&mut self) -> bool {
        let now = self.now();
        match self.limit {
            Some(limit) => now >= limit,
            None => false,
        }
    }
}
