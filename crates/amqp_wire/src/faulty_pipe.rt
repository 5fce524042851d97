//! A link in memory that can fail and end.
ghost use Rattle.std.specs.Prelude.{◌≡◌, ◌↔◌, ◌+◌, ◌<◌, ◌≤◌, ℕ, [], ◌++◌, length, drop, min, Some, IfOk, OnOk, OnErr, true, false};
ghost use Rattle.amqp_wire.specs.Link.{Reads, Writes, HasCause, IsFailedRead, IsFailedWrite};
ghost use Rattle.amqp_wire.specs.Failures.{fails_next, after_call};

use crate::failures::FailingCalls;
use crate::link::{Link, LinkRead, LinkWrite};
use std::alloc::{AllocError, Global};
use std::marker::Model;

/// A link in memory of which some calls fail, and whose input may end. It keeps all output,
/// and a mark up to which it was taken. Where no call fails and the input does not end, it
/// answers as a `Pipe` does.
#[derive(Debug, Drop)]
pub struct FaultyPipe {
    input: Vec<u8>,
    front: usize,
    output: Vec<u8>,
    mark: usize,
    ends: bool,
    failures: FailingCalls,
}

impl Model for FaultyPipe {
    ghost use Rattle.std.specs.Prelude.{drop, ◌≤◌, vec_len};
    ghost use Rattle.amqp_wire.specs.Faulty.{Faulty};

    ghost Value = { Faulty };

    ghost view = { λ p. record { input = drop p.front p.input.items; output = p.output.items; mark = p.mark; ends = p.ends; failures = p.failures } };

    ghost invariant = { λ p. (p.front ≤ vec_len p.input) × (p.mark ≤ vec_len p.output) };
}

impl FaultyPipe {
    /// A pipe with this input, which ends behind it if `ends`. `failing` has the numbers of
    /// the calls of `read` and `write`, counted together from 0, that fail.
    pub fn new(alloc: Global, input: &[u8], ends: bool, failing: &[u64]) -> Result<Self, AllocError>
        ensures { IfOk result (λ p. p ≡ record { input = input.now; output = []; mark = 0; ends = ends; failures = record { failing = failing.now; calls = 0; faults = 0 } }) }
    {
        let input = Vec::from_slice(alloc, input)?;
        let failures = FailingCalls::new(alloc, failing)?;
        Ok(FaultyPipe {
            input,
            front: 0,
            output: Vec::new(alloc),
            mark: 0,
            ends,
            failures,
        })
    }

    /// Adds input at its end. An `Err` changes nothing.
    pub fn give(&mut self, piece: &[u8]) -> Result<(), AllocError>
        ensures ok { OnOk result (self.new ≡ record self.old { input = self.old.input ++ piece.now }) }
        ensures err { OnErr result (self.new ≡ self.old) }
    {
        self.input.extend_from_slice(piece)?;
        Ok(())
    }

    /// The output past the mark.
    pub fn untaken(&self) -> &[u8]
        ensures bytes { result.now ≡ drop self.now.mark self.now.output }
        ensures mark { self.now.mark ≤ length self.now.output }
    {
        &self.output[self.mark..]
    }

    /// All output so far.
    pub fn output(&self) -> &[u8]
        ensures { result.now ≡ self.now.output }
    {
        self.output.as_slice()
    }

    /// Moves the mark over so many bytes of output.
    pub fn taken(&mut self, count: usize)
        requires { self.old.mark + count ≤ length self.old.output }
        ensures { self.new ≡ record self.old { mark = self.old.mark + count } }
    {
        self.mark += count;
    }
}

impl Link for FaultyPipe {
    ghost input = { λ p. Some p.input };

    ghost ready = { λ p. Some p.input };

    ghost output = { λ p. Some p.output };

    ghost mark = { λ p. p.mark };

    ghost can_fill = { λ _. ⊥ };

    ghost can_end = { λ p. (p.ends ≡ true) × (p.input ≡ []) };

    ghost faults = { λ p. p.failures.faults };

    fn read(&mut self, buf: &mut [u8]) -> LinkRead
        ensures bytes { Reads (Some self.old.input) (Some self.new.input) (Some self.old.input) result buf.new }
        ensures kept { Some self.new.output ≡ Some self.old.output }
        ensures mark { self.new.mark ≡ self.old.mark }
        ensures ends { self.new.ends ≡ self.old.ends }
        ensures end { result ≡ LinkRead.End → (self.old.ends ≡ true) × (self.old.input ≡ []) }
        ensures cause { HasCause self.old.failures.faults self.new.failures.faults (IsFailedRead result) }
        ensures failed { result ≡ LinkRead.Failed ↔ fails_next self.old.failures ≡ true }
        ensures most { (n : ℕ) → result ≡ LinkRead.Bytes n → n ≡ min (length buf.old) (length self.old.input) }
        ensures empty { result ≡ LinkRead.Empty → 0 < length buf.old → self.old.ends ≡ false }
        ensures counted { self.new.failures ≡ after_call (fails_next self.old.failures) self.old.failures }
    {
        if self.failures.next_fails() {
            return LinkRead::Failed;
        }
        let count = buf.len().min(self.input.len() - self.front);
        if count == 0 {
            if self.ends && buf.len() > 0 {
                return LinkRead::End;
            }
            return LinkRead::Empty;
        }
        buf[..count].copy_from_slice(&self.input[self.front..self.front + count]);
        self.front += count;
        LinkRead::Bytes(count)
    }

    fn write(&mut self, piece: &[u8]) -> LinkWrite
        ensures bytes { Writes (Some self.old.output) (Some self.new.output) result piece.now }
        ensures kept { Some self.new.input ≡ Some self.old.input }
        ensures ready { Some self.new.input ≡ Some self.old.input }
        ensures mark { self.new.mark ≡ self.old.mark }
        ensures ends { self.new.ends ≡ self.old.ends }
        ensures full { result ≡ LinkWrite.Full → ⊥ }
        ensures cause { HasCause self.old.failures.faults self.new.failures.faults (IsFailedWrite result) }
        ensures failed { result ≡ LinkWrite.Failed ↔ fails_next self.old.failures ≡ true }
        ensures whole { (n : ℕ) → result ≡ LinkWrite.Took n → n ≡ length piece.now }
        ensures counted { self.new.failures ≡ after_call (fails_next self.old.failures) self.old.failures }
    {
        if self.failures.next_fails() {
            return LinkWrite::Failed;
        }
        match self.output.extend_from_slice(piece) {
            Ok(()) => LinkWrite::Took(piece.len()),
            Err(_) => LinkWrite::Memory,
        }
    }
}
