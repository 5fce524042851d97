//! A source and a sink in memory.
ghost use Rattle.std.specs.Prelude.{◌≡◌, ◌↔◌, ◌<◌, ◌≤◌, ℕ, [], length, min, Some, IfOk, true, false};
ghost use Rattle.amqp_wire.specs.Link.{HasCause};
ghost use Rattle.amqp_wire.specs.Source.{SourceReads, SinkWrites};
ghost use Rattle.amqp_wire.specs.Failures.{fails_next, after_call};

use crate::failures::FailingCalls;
use crate::source::{Sink, SinkWrite, Source, SourceRead};
use std::alloc::{AllocError, Global};
use std::marker::Model;

/// A source over bytes in memory, of which some calls fail.
#[derive(Debug, Drop)]
pub struct MemorySource {
    bytes: Vec<u8>,
    front: usize,
    failures: FailingCalls,
}

impl Model for MemorySource {
    ghost use Rattle.std.specs.Prelude.{drop, ◌≤◌, vec_len};
    ghost use Rattle.amqp_wire.specs.Memory.{Supply};

    ghost Value = { Supply };

    ghost view = { λ s. record { left = drop s.front s.bytes.items; failures = s.failures } };

    ghost invariant = { λ s. s.front ≤ vec_len s.bytes };
}

impl MemorySource {
    /// A source of these bytes. `failing` has the numbers of the calls that fail, from 0.
    pub fn new(alloc: Global, bytes: &[u8], failing: &[u64]) -> Result<Self, AllocError>
        ensures { IfOk result (λ s. s ≡ record { left = bytes.now; failures = record { failing = failing.now; calls = 0; faults = 0 } }) }
    {
        let bytes = Vec::from_slice(alloc, bytes)?;
        let failures = FailingCalls::new(alloc, failing)?;
        Ok(MemorySource {
            bytes,
            front: 0,
            failures,
        })
    }
}

impl Source for MemorySource {
    ghost left = { λ s. Some s.left };

    ghost faults = { λ s. s.failures.faults };

    fn read(&mut self, buf: &mut [u8]) -> SourceRead
        ensures bytes { SourceReads (Some self.old.left) (Some self.new.left) result buf.new }
        ensures cause { HasCause self.old.failures.faults self.new.failures.faults (result ≡ SourceRead.Failed) }
        ensures failed { result ≡ SourceRead.Failed ↔ fails_next self.old.failures ≡ true }
        ensures most { (n : ℕ) → result ≡ SourceRead.Bytes n → n ≡ min (length buf.old) (length self.old.left) }
        ensures end { result ≡ SourceRead.End ↔ (fails_next self.old.failures ≡ false) × (self.old.left ≡ []) × 0 < length buf.old }
        ensures counted { self.new.failures ≡ after_call (fails_next self.old.failures) self.old.failures }
    {
        if self.failures.next_fails() {
            return SourceRead::Failed;
        }
        let count = buf.len().min(self.bytes.len() - self.front);
        if count == 0 && buf.len() > 0 {
            return SourceRead::End;
        }
        buf[..count].copy_from_slice(&self.bytes[self.front..self.front + count]);
        self.front += count;
        SourceRead::Bytes(count)
    }
}

/// A sink that keeps what is written, and of which some calls fail.
#[derive(Debug, Drop)]
pub struct MemorySink {
    written: Vec<u8>,
    failures: FailingCalls,
}

impl Model for MemorySink {
    ghost use Rattle.amqp_wire.specs.Memory.{Gathering};

    ghost Value = { Gathering };

    ghost view = { λ s. record { written = s.written.items; failures = s.failures } };
}

impl MemorySink {
    /// An empty sink. `failing` has the numbers of the calls that fail, from 0.
    pub fn new(alloc: Global, failing: &[u64]) -> Result<Self, AllocError>
        ensures { IfOk result (λ s. s ≡ record { written = []; failures = record { failing = failing.now; calls = 0; faults = 0 } }) }
    {
        Ok(MemorySink {
            written: Vec::new(alloc),
            failures: FailingCalls::new(alloc, failing)?,
        })
    }

    /// What was written.
    pub fn written(&self) -> &[u8]
        ensures { result.now ≡ self.now.written }
    {
        self.written.as_slice()
    }
}

impl Sink for MemorySink {
    ghost written = { λ s. Some s.written };

    ghost faults = { λ s. s.failures.faults };

    fn write(&mut self, piece: &[u8]) -> SinkWrite
        ensures bytes { SinkWrites (Some self.old.written) (Some self.new.written) result piece.now }
        ensures cause { HasCause self.old.failures.faults self.new.failures.faults (result ≡ SinkWrite.Failed) }
        ensures failed { result ≡ SinkWrite.Failed ↔ fails_next self.old.failures ≡ true }
        ensures whole { (n : ℕ) → result ≡ SinkWrite.Took n → n ≡ length piece.now }
        ensures counted { self.new.failures ≡ after_call (fails_next self.old.failures) self.old.failures }
    {
        if self.failures.next_fails() {
            return SinkWrite::Failed;
        }
        match self.written.extend_from_slice(piece) {
            Ok(()) => SinkWrite::Took(piece.len()),
            Err(_) => SinkWrite::Memory,
        }
    }
}
