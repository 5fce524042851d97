//! Payloads: the body of a message, in the pieces that it came in.
ghost use Rattle.std.specs.Prelude.{◌≡◌, ◌↔◌, ◌+◌, ◌<◌, ◌≤◌, ◌^◌, [], ◌++◌, length, take, All, IsTrue, OnOk, OnErr, IfErr, IsErrOf};
ghost use Rattle.amqp_value.specs.declared.error.ValueError.{ValueError};
ghost use Rattle.amqp_value.specs.declared.payload.PayloadError.{PayloadError};
ghost use Rattle.amqp_value.specs.declared.payload.PayloadError.TheVariants.{Memory, Length};
ghost use Rattle.amqp_value.specs.Pieces.{joined, with_piece, front_pieces};

use crate::error::ValueError;
use bytes::Bytes;
use std::alloc::{AllocError, Global};
use std::marker::Model;
use thiserror::Error;

/// Why a piece is not added to a payload.
#[derive(Clone, Copy, Debug, PartialEq, Eq, Error)]
pub enum PayloadError {
    /// There was not enough memory.
    #[error("Memory")]
    Memory(AllocError),
    /// The number of bytes needs more than 64 bits: pieces may share one block of memory.
    #[error("Length")]
    Length,
}

impl From<AllocError> for PayloadError {
    ghost from_gives = { λ a e. e ≡ Memory a };

    fn from(error: AllocError) -> Self {
        PayloadError::Memory(error)
    }
}

/// A payload, seen as the list of its pieces, each of them the list of its bytes. No piece is empty. Pieces may share their memory with
/// others.
#[derive(Debug, Drop)]
pub struct PayloadList {
    pieces: Vec<Bytes>,
    total: u64,
}

impl Model for PayloadList {
    ghost use Rattle.std.specs.Prelude.{◌≡◌, ◌<◌, ℕ, List, length, All};
    ghost use Rattle.amqp_value.specs.Pieces.{joined};

    ghost Value = { List (List ℕ) };

    ghost view = { λ a. a.pieces.items };

    ghost invariant = { λ a. (a.total ≡ length (joined a.pieces.items)) × All (λ piece. 0 < length piece) a.pieces.items };
}

impl PayloadList {
    /// The payload of no bytes; takes no memory.
    pub fn new(alloc: Global) -> Self
        ensures { result ≡ [] }
    {
        PayloadList {
            pieces: Vec::new(alloc),
            total: 0,
        }
    }

    /// Adds a piece at the end, and copies none of its bytes. A piece of no bytes is not kept. An error lets the piece go.
    pub fn push(&mut self, piece: Bytes) -> Result<(), PayloadError>
        ensures bytes { OnOk result (joined self.new ≡ joined self.old ++ piece) }
        ensures pieces { OnOk result (self.new ≡ with_piece self.old piece) }
        ensures length { IsErrOf result PayloadError.Length ↔ (2 ^ 64 ≤ length (joined self.old) + length piece) }
        ensures err { OnErr result (self.new ≡ self.old) }
    {
        let Some(total) = self.total.checked_add(piece.len() as u64) else {
            return Err(PayloadError::Length);
        };
        if piece.is_empty() {
            return Ok(());
        }
        self.pieces.push(piece).map_err(AllocError::from)?;
        self.total = total;
        Ok(())
    }

    /// Keeps the first bytes, at most `size` of them, and lets the others go. The piece that goes further is cut where it lies: no byte
    /// is copied, no memory is taken, and it cannot fail.
    pub fn truncate(&mut self, size: u64)
        ensures bytes { joined self.new ≡ take size (joined self.old) }
        ensures pieces { self.new ≡ front_pieces size self.old }
    {
        while let Some(last) = self.pieces.last_mut() {
            let before = self.total - last.len() as u64;
            if before < size {
                let kept = size.min(self.total);
                last.truncate((kept - before) as usize);
                self.total = kept;
                return;
            }
            self.pieces.pop();
            self.total = before;
        }
    }

    /// The number of bytes.
    pub fn len(&self) -> u64
        ensures { result ≡ length (joined self.now) }
    {
        self.total
    }

    pub fn is_empty(&self) -> bool
        ensures { IsTrue result ↔ (joined self.now ≡ []) }
    {
        self.total == 0
    }

    /// The number of pieces.
    pub fn pieces(&self) -> usize
        ensures { result ≡ length self.now }
    {
        self.pieces.len()
    }

    /// The pieces, lent, in their order.
    pub fn as_slice(&self) -> &[Bytes]
        ensures same { result.now ≡ self.now }
        ensures filled { All (λ piece. 0 < length piece) result.now }
    {
        self.pieces.as_slice()
    }

    /// The bytes from the first to the last; takes no memory.
    pub fn iter(&self) -> PayloadBytes<'_>
        ensures { result ≡ joined self.now }
    {
        PayloadBytes {
            span: Span {
                front: &[],
                pieces: &self.pieces,
                back: &[],
            },
            left: self.total,
        }
    }
}

/// The bytes of a payload that are left, seen as their list. They are taken from both ends.
#[derive(Debug, Drop)]
pub struct PayloadBytes<'a> {
    span: Span<'a>,
    left: u64,
}

impl<'a> Model for PayloadBytes<'a> {
    ghost use Rattle.std.specs.Prelude.{◌≡◌, ℕ, List, length};
    ghost use Rattle.amqp_value.specs.Span.{spanned};

    ghost Value = { List ℕ };

    ghost view = { λ a. spanned a.span };

    ghost invariant = { λ a. a.left ≡ length (spanned a.span) };
}

impl<'a> PayloadBytes<'a> {
    /// The number of bytes that are left.
    pub fn len(&self) -> u64
        ensures { result ≡ length self.now }
    {
        self.left
    }

    pub fn is_empty(&self) -> bool
        ensures { IsTrue result ↔ (self.now ≡ []) }
    {
        self.left == 0
    }

    /// Takes the next bytes of one piece, at most so many.
    fn next_slice(&mut self, limit: usize) -> &'a [u8]
        ensures same { self.old ≡ result.now ++ self.new }
        ensures within { length result.now ≤ limit }
        ensures some { 0 < limit → 0 < length self.old → 0 < length result.now }
    {
        self.span = self.span.with_front();
        let front = self.span.front;
        let (taken, kept) = front.split_at(limit.min(front.len()));
        self.span.front = kept;
        self.left -= taken.len() as u64;
        taken
    }
}

impl Iterator for PayloadBytes<'_> {
    ghost use Rattle.std.specs.Iterator.{YieldsFirst, item_count};

    type Item = u8;

    ghost next_gives = { YieldsFirst (λ s. s) };

    ghost remaining = { item_count (λ s. s) };

    fn next(&mut self) -> Option<u8> {
        self.span = self.span.with_front();
        let (first, rest) = self.span.front.split_first()?;
        self.span.front = rest;
        self.left -= 1;
        Some(*first)
    }
}

impl DoubleEndedIterator for PayloadBytes<'_> {
    ghost use Rattle.std.specs.Iterator.{YieldsLast};

    ghost next_back_gives = { YieldsLast (λ s. s) };

    fn next_back(&mut self) -> Option<u8> {
        self.span = self.span.with_back();
        let (last, rest) = self.span.back.split_last()?;
        self.span.back = rest;
        self.left -= 1;
        Some(*last)
    }
}

/// Bytes in a row: the rest of a first piece, whole pieces, and the rest of a last piece.
#[derive(Clone, Copy, Debug)]
struct Span<'a> {
    front: &'a [u8],
    pieces: &'a [Bytes],
    back: &'a [u8],
}

impl<'a> Span<'a> {
    ghost use Rattle.std.specs.Prelude.{◌≡◌, [], length};
    ghost use Rattle.amqp_value.specs.Span.{spanned};

    /// The same bytes, with the first of them in front, if there is one.
    fn with_front(self) -> Span<'a>
        ensures same { spanned result ≡ spanned self.entry }
        ensures empty { length result.front.now ≡ 0 → spanned self.entry ≡ [] }
    {
        if !self.front.is_empty() {
            return self;
        }
        let back = self.back;
        let mut left = self.pieces;
        while let [piece, pieces @ ..] = left {
            left = pieces;
            if !piece.is_empty() {
                let front: &[u8] = piece;
                return Span {
                    front,
                    pieces,
                    back,
                };
            }
        }
        Span {
            front: back,
            pieces: &[],
            back: &[],
        }
    }

    /// The same bytes, with the last of them in the back, if there is one.
    fn with_back(self) -> Span<'a>
        ensures same { spanned result ≡ spanned self.entry }
        ensures empty { length result.back.now ≡ 0 → spanned self.entry ≡ [] }
    {
        if !self.back.is_empty() {
            return self;
        }
        let front = self.front;
        let mut left = self.pieces;
        while let Some((piece, pieces)) = left.split_last() {
            left = pieces;
            if !piece.is_empty() {
                let back: &[u8] = piece;
                return Span {
                    front,
                    pieces,
                    back,
                };
            }
        }
        Span {
            front: &[],
            pieces: &[],
            back: front,
        }
    }
}

/// Reads a payload from its first byte on, seen as the list of the bytes that are left.
#[derive(Debug, Drop)]
pub struct PayloadReader<'a> {
    bytes: PayloadBytes<'a>,
}

impl<'a> Model for PayloadReader<'a> {
    ghost use Rattle.std.specs.Prelude.{ℕ, List};

    ghost Value = { List ℕ };

    ghost view = { λ a. a.bytes };
}

impl<'a> PayloadReader<'a> {
    /// A reader of all the bytes; takes no memory.
    pub fn new(list: &'a PayloadList) -> Self
        ensures { result ≡ joined list.now }
    {
        PayloadReader { bytes: list.iter() }
    }

    /// The number of bytes that are left.
    pub fn remaining(&self) -> u64
        ensures { result ≡ length self.now }
    {
        self.bytes.len()
    }

    /// Reads the next bytes into the whole of `out`. Where too few are left, `Short` takes none
    /// of them and leaves `out` as it was.
    pub fn read_exact(&mut self, out: &mut [u8]) -> Result<(), ValueError>
        ensures ok { OnOk result (self.old ≡ out.new ++ self.new) }
        ensures len { length out.new ≡ length out.old }
        ensures short { IsErrOf result ValueError.Short ↔ (length self.old < length out.old) }
        ensures only { IfErr result (λ e. e ≡ ValueError.Short) }
        ensures err_reader { OnErr result (self.new ≡ self.old) }
        ensures err_out { OnErr result (out.new ≡ out.old) }
    {
        if self.bytes.len() < out.len() as u64 {
            return Err(ValueError::Short);
        }
        let mut filled = 0;
        while filled < out.len() {
            let slice = self.bytes.next_slice(out.len() - filled);
            put_at(out, filled, slice);
            filled += slice.len();
        }
        Ok(())
    }
}

/// Writes `slice` into `out` from there on.
fn put_at(out: &mut [u8], at: usize, slice: &[u8])
    requires { at + length slice.now ≤ length out.old }
    ensures { take (at + length slice.now) out.new ≡ take at out.old ++ slice.now }
{
    out[at..at + slice.len()].copy_from_slice(slice);
}
