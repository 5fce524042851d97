//! Bytes that were read and are not given yet.
ghost use Rattle.std.specs.Prelude.{◌≡◌, ◌<◌, ◌≤◌, ◌==◌, ◌+◌, ◌++◌, ◌⊎◌, ℕ, [], length, take, drop, true, false, OnOk, OnErr, IfOk};
ghost use Rattle.amqp_wire.specs.Frame.{IsFront, HasBody};
ghost use Rattle.amqp_wire.specs.Steps.{FilledBy};

use crate::codec::Filled;
use crate::frame::{Front, front_of};
use crate::link::{Link, LinkRead, Stop};
use bytes::{Bytes, BytesMut};
use std::alloc::{AllocError, Global};
use std::marker::Model;

/// The most bytes that one read takes.
const PIECE: usize = 4096;

/// A frame that was cut off and not given, if there is one, and the bytes behind it. `piece` is what a read fills: empty up to
/// the first read, and then of `PIECE` bytes.
#[derive(Drop)]
pub(crate) struct Inbox {
    cut: Bytes,
    rest: BytesMut,
    piece: Vec<u8>,
}

impl Model for Inbox {
    ghost use Rattle.std.specs.Prelude.{List, ℕ, ◌++◌};
    ghost use Rattle.amqp_wire.specs.Cut.{IsCut};

    ghost Value = { List ℕ };

    ghost view = { λ b. b.cut ++ b.rest.items };

    ghost invariant = { λ b. IsCut b.cut };
}

/// Cuts so many bytes off, if they are not cut off already.
fn cut_off(cut: &mut Bytes, rest: &mut BytesMut, size: usize) -> Result<(), AllocError>
    requires fits { size ≤ length (cut.old ++ rest.old.items) }
    requires cut { (cut.old ≡ []) ⊎ (length cut.old ≡ size) }
    ensures cut { OnOk result (cut.new ≡ take size (cut.old ++ rest.old.items)) }
    ensures rest { OnOk result (rest.new.items ≡ drop size (cut.old ++ rest.old.items)) }
    ensures err { OnErr result ((cut.new ≡ cut.old) × (rest.new ≡ rest.old)) }
{
    if cut.is_empty() {
        *cut = rest.freeze_to(size)?;
    }
    Ok(())
}

/// Drops what was cut off, or so many bytes.
fn drop_cut(cut: &mut Bytes, rest: &mut BytesMut, size: usize)
    requires fits { size ≤ length (cut.old ++ rest.old.items) }
    requires cut { (cut.old ≡ []) ⊎ (length cut.old ≡ size) }
    ensures cut { cut.new ≡ [] }
    ensures rest { rest.new.items ≡ drop size (cut.old ++ rest.old.items) }
{
    if cut.is_empty() {
        rest.advance(size);
        return;
    }
    *cut = Bytes::new();
}

/// Puts what was cut off back in front.
fn join(alloc: Global, cut: &mut Bytes, rest: &mut BytesMut) -> Result<(), AllocError>
    ensures cut { OnOk result (cut.new ≡ []) }
    ensures rest { OnOk result (rest.new.items ≡ cut.old ++ rest.old.items) }
    ensures err { OnErr result ((cut.new ≡ cut.old) × (rest.new.items ≡ rest.old.items)) }
{
    if cut.is_empty() {
        return Ok(());
    }
    let mut all = BytesMut::copy_from_slice(alloc, cut.as_slice())?;
    all.extend_from_slice(rest.as_slice())?;
    *rest = all;
    *cut = Bytes::new();
    Ok(())
}

impl Inbox {
    /// No bytes.
    pub(crate) fn new(alloc: Global) -> Self
        ensures { result ≡ [] }
    {
        Inbox {
            cut: Bytes::new(),
            rest: BytesMut::new(alloc),
            piece: Vec::new(alloc),
        }
    }

    /// Whether there are none.
    pub(crate) fn is_empty(&self) -> bool
        ensures { result ≡ (length self.now == 0) }
    {
        self.cut.is_empty() && self.rest.is_empty()
    }

    /// Whether there are eight.
    pub(crate) fn has_header(&self) -> bool
        ensures yes { result ≡ true → 8 ≤ length self.now }
        ensures no { result ≡ false → length self.now < 8 }
    {
        !self.cut.is_empty() || self.rest.len() >= 8
    }

    /// What the bytes begin with.
    pub(crate) fn front(&self, kind: u8, limit: usize) -> Front
        requires { 8 ≤ limit }
        ensures { IsFront kind limit self.now result }
    {
        if self.cut.is_empty() {
            return front_of(kind, limit, self.rest.as_slice());
        }
        front_of(kind, limit, self.cut.as_slice())
    }

    /// One read of the link. Room is made before it, so that no byte that moved is lost.
    pub(crate) fn fill<L: Link>(&mut self, link: &mut L) -> Result<Filled, AllocError>
        ensures filled { FilledBy L.Link self.old link.old result self.new link.new }
        ensures most { length self.new ≤ length self.old + 4096 }
    {
        self.rest.reserve(PIECE)?;
        self.piece.resize(PIECE, 0)?;
        match link.read(self.piece.as_mut_slice()) {
            LinkRead::Bytes(count) => {
                self.rest.extend_reserved(&self.piece[..count]);
                Ok(Filled::More)
            }
            LinkRead::Empty => Ok(Filled::Stopped(Stop::Empty)),
            LinkRead::End => Ok(Filled::Stopped(Stop::End)),
            LinkRead::Failed => Ok(Filled::Stopped(Stop::Failed)),
        }
    }

    /// The first eight bytes.
    pub(crate) fn header(&self) -> [u8; 8]
        requires { 8 ≤ length self.now }
        ensures { result ≡ take 8 self.now }
    {
        let mut header = [0u8; 8];
        if self.cut.is_empty() {
            header.copy_from_slice(&self.rest.as_slice()[..8]);
            return header;
        }
        header.copy_from_slice(&self.cut.as_slice()[..8]);
        header
    }

    /// Takes the first eight bytes off. An `Err` changes nothing.
    pub(crate) fn take_header(&mut self, alloc: Global) -> Result<(), AllocError>
        requires { 8 ≤ length self.old }
        ensures ok { OnOk result (self.new ≡ drop 8 self.old) }
        ensures err { OnErr result (self.new ≡ self.old) }
    {
        join(alloc, &mut self.cut, &mut self.rest)?;
        self.rest.advance(8);
        Ok(())
    }

    /// The first frame, with its body from `start` on. An `Err`, too, changes nothing.
    #[tactic(auto, using(crate::proofs::Cuts::cut_is_size, crate::proofs::Cuts::taken_is_cut))]
    pub(crate) fn body(&mut self, size: usize, start: usize) -> Result<Bytes, AllocError>
        requires { (kind limit channel : ℕ) × HasBody kind limit self.old size start channel }
        ensures body { IfOk result (λ b. b ≡ drop start (take size self.old)) }
        ensures same { self.new ≡ self.old }
    {
        cut_off(&mut self.cut, &mut self.rest, size)?;
        let body = self.cut.slice(start..)?;
        Ok(body)
    }

    /// The bytes of the first frame.
    pub(crate) fn frame(&self, size: usize) -> &[u8]
        requires { (kind limit start channel : ℕ) × HasBody kind limit self.now size start channel }
        ensures { result.now ≡ take size self.now }
    {
        if self.cut.is_empty() {
            return &self.rest.as_slice()[..size];
        }
        self.cut.as_slice()
    }

    /// Takes the first frame off.
    pub(crate) fn take_frame(&mut self, size: usize)
        requires { (kind limit start channel : ℕ) × HasBody kind limit self.old size start channel }
        ensures { self.new ≡ drop size self.old }
    {
        drop_cut(&mut self.cut, &mut self.rest, size);
    }
}
