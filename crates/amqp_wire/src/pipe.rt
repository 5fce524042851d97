//! A link in memory.
ghost use Rattle.std.specs.Prelude.{◌≡◌, ◌+◌, ◌≤◌, ℕ, [], ◌++◌, length, drop, min, Some, OnOk, OnErr};
ghost use Rattle.amqp_wire.specs.Link.{Reads, Writes, HasCause, IsFailedRead, IsFailedWrite};

use crate::link::{Link, LinkRead, LinkWrite};
use std::alloc::{AllocError, Global};
use std::marker::Model;

/// A link in memory that never fails, fills or ends. It keeps all output, and a mark up to
/// which it was taken.
#[derive(Debug, Drop)]
pub struct Pipe {
    input: Vec<u8>,
    front: usize,
    output: Vec<u8>,
    mark: usize,
}

impl Model for Pipe {
    ghost use Rattle.std.specs.Prelude.{drop, ◌≤◌, vec_len};
    ghost use Rattle.amqp_wire.specs.Piped.{Piped};

    ghost Value = { Piped };

    ghost view = { λ p. record { input = drop p.front p.input.items; output = p.output.items; mark = p.mark } };

    ghost invariant = { λ p. (p.front ≤ vec_len p.input) × (p.mark ≤ vec_len p.output) };
}

impl Pipe {
    /// An empty pipe.
    pub fn new(alloc: Global) -> Self
        ensures { result ≡ record { input = []; output = []; mark = 0 } }
    {
        Pipe {
            input: Vec::new(alloc),
            front: 0,
            output: Vec::new(alloc),
            mark: 0,
        }
    }

    /// Adds input at its end. An `Err` changes nothing.
    pub fn give(&mut self, piece: &[u8]) -> Result<(), AllocError>
        ensures ok { OnOk result (self.new ≡ record self.old { input = self.old.input ++ piece.now }) }
        ensures err { OnErr result (self.new ≡ self.old) }
    {
        self.input.extend_from_slice(piece)?;
        Ok(())
    }

    /// The output past the mark.
    pub fn untaken(&self) -> &[u8]
        ensures bytes { result.now ≡ drop self.now.mark self.now.output }
        ensures mark { self.now.mark ≤ length self.now.output }
    {
        &self.output[self.mark..]
    }

    /// All output so far.
    pub fn output(&self) -> &[u8]
        ensures { result.now ≡ self.now.output }
    {
        self.output.as_slice()
    }

    /// Moves the mark over so many bytes of output.
    pub fn taken(&mut self, count: usize)
        requires { self.old.mark + count ≤ length self.old.output }
        ensures { self.new ≡ record self.old { mark = self.old.mark + count } }
    {
        self.mark += count;
    }
}

impl Link for Pipe {
    ghost input = { λ p. Some p.input };

    ghost ready = { λ p. Some p.input };

    ghost output = { λ p. Some p.output };

    ghost mark = { λ p. p.mark };

    ghost can_fill = { λ _. ⊥ };

    ghost can_end = { λ _. ⊥ };

    ghost faults = { λ _. 0 };

    fn read(&mut self, buf: &mut [u8]) -> LinkRead
        ensures bytes { Reads (Some self.old.input) (Some self.new.input) (Some self.old.input) result buf.new }
        ensures kept { Some self.new.output ≡ Some self.old.output }
        ensures mark { self.new.mark ≡ self.old.mark }
        ensures end { result ≡ LinkRead.End → ⊥ }
        ensures cause { HasCause 0 0 (IsFailedRead result) }
        ensures most { (n : ℕ) → result ≡ LinkRead.Bytes n → n ≡ min (length buf.old) (length self.old.input) }
    {
        let count = buf.len().min(self.input.len() - self.front);
        if count == 0 {
            return LinkRead::Empty;
        }
        buf[..count].copy_from_slice(&self.input[self.front..self.front + count]);
        self.front += count;
        LinkRead::Bytes(count)
    }

    fn write(&mut self, piece: &[u8]) -> LinkWrite
        ensures bytes { Writes (Some self.old.output) (Some self.new.output) result piece.now }
        ensures kept { Some self.new.input ≡ Some self.old.input }
        ensures ready { Some self.new.input ≡ Some self.old.input }
        ensures mark { self.new.mark ≡ self.old.mark }
        ensures full { result ≡ LinkWrite.Full → ⊥ }
        ensures cause { HasCause 0 0 (IsFailedWrite result) }
        ensures whole { (n : ℕ) → result ≡ LinkWrite.Took n → n ≡ length piece.now }
    {
        match self.output.extend_from_slice(piece) {
            Ok(()) => LinkWrite::Took(piece.len()),
            Err(_) => LinkWrite::Memory,
        }
    }
}
