//! Calls that are to fail, for the forms in memory.
ghost use Rattle.std.specs.Prelude.{◌≡◌, ◌≤◌, IfOk, true};
ghost use Rattle.amqp_wire.specs.Link.{Rose};
ghost use Rattle.amqp_wire.specs.Failures.{fails_next, after_call};

use std::alloc::{AllocError, Global};
use std::marker::Model;

/// Counts calls from 0, and knows the numbers of those that fail. Both counts stand still
/// at the last value of a `u64`.
#[derive(Debug, Drop)]
pub struct FailingCalls {
    failing: Vec<u64>,
    calls: u64,
    faults: u64,
}

impl Model for FailingCalls {
    ghost use Rattle.amqp_wire.specs.Failures.{Failures};

    ghost Value = { Failures };

    ghost view = { λ f. record { failing = f.failing.items; calls = f.calls; faults = f.faults } };
}

impl FailingCalls {
    /// No call was made yet.
    pub fn new(alloc: Global, failing: &[u64]) -> Result<Self, AllocError>
        ensures { IfOk result (λ f. f ≡ record { failing = failing.now; calls = 0; faults = 0 }) }
    {
        Ok(FailingCalls {
            failing: Vec::from_slice(alloc, failing)?,
            calls: 0,
            faults: 0,
        })
    }

    /// Counts a call, and says whether it is to fail.
    pub fn next_fails(&mut self) -> bool
        ensures listed { result ≡ fails_next self.old }
        ensures counted { self.new ≡ after_call result self.old }
        ensures later { self.old.faults ≤ self.new.faults }
        ensures rose { result ≡ true → Rose self.old.faults self.new.faults }
    {
        let fails = self.failing.contains(&self.calls);
        self.calls = self.calls.saturating_add(1);
        if fails {
            self.faults = self.faults.saturating_add(1);
        }
        fails
    }
}
