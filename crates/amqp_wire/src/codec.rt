//! A link with what was read of it, what is to be written, and the limits of frames.
ghost use Rattle.std.specs.Prelude.{◌≡◌, ◌<◌, ◌≤◌, ◌==◌, ◌↔◌, ◌+◌, ◌++◌, ◌^◌, ℕ, [], length, take, drop, max, true, false, IsTrue, IfOk, OnOk, OnErr};
ghost use Rattle.std.specs.Borrow.{Lends, sem};
ghost use Rattle.amqp_wire.specs.contracts.codec.FramedCodec.{the_row};
ghost use Rattle.amqp_wire.specs.Frame.{IsFront, HasBody, frame_of};
ghost use Rattle.amqp_wire.specs.Steps.{FilledBy};
ghost use Rattle.amqp_wire.specs.Codec.{Flushed};

use crate::frame::{Front, put_frame};
use crate::inbox::Inbox;
use crate::link::{Held, Link, LinkWrite, Stop};
use bytes::{Bytes, BytesMut};
use std::alloc::{AllocError, Global};
use std::marker::Model;

/// The least limit of a frame, in bytes (part 2, section 2.4.1).
pub const MIN_MAX_FRAME_SIZE: usize = 512;

/// What one read of the link brought.
#[derive(Clone, Copy, Debug, PartialEq, Eq)]
pub enum Filled {
    /// At least one byte came in.
    More,
    /// None came, and this was answered.
    Stopped(Stop),
}

/// A link, the bytes that were read of it and not given yet, those that are to be written, and the most bytes of a frame that
/// is read and of one that is written.
#[derive(Drop)]
pub struct FramedCodec<L: Link> {
    link: L,
    input: Inbox,
    output: BytesMut,
    decoder: usize,
    encoder: usize,
    alloc: Global,
}

impl<L: Link> Model for FramedCodec<L> {
    ghost use Rattle.std.specs.Prelude.{◌≤◌};
    ghost use Rattle.amqp_wire.specs.Codec.{Codec};

    ghost Value = { Codec L };

    ghost view = { λ c. record { link = c.link; input = c.input; output = c.output.items; decoder = c.decoder; encoder = c.encoder } };

    ghost invariant = { λ c. (512 ≤ c.decoder) × (512 ≤ c.encoder) };
}

impl<L: Link> FramedCodec<L> {
    /// A codec over the link, with nothing read and nothing queued. The limits are in bytes, and at least 512.
    pub fn new(alloc: Global, link: L, decoder: usize, encoder: usize) -> Self
        requires decoder { 512 ≤ decoder }
        requires encoder { 512 ≤ encoder }
        ensures { result ≡ record { link = link; input = []; output = []; decoder = decoder; encoder = encoder } }
    {
        FramedCodec {
            link,
            input: Inbox::new(alloc),
            output: BytesMut::new(alloc),
            decoder,
            encoder,
            alloc,
        }
    }

    /// What memory is asked of.
    pub fn alloc(&self) -> Global {
        self.alloc
    }

    /// The link.
    pub fn link(&mut self) -> &mut L
        ensures* writes_back { sem 𝓛 (Lends (the_row L.row L.Link) L.row self.entry result (λ w. record self.old { link = w })) }
        ensures value { result.now ≡ self.old.link }
    {
        &mut self.link
    }

    /// The link, to be looked at.
    pub fn link_ref(&self) -> &L
        ensures { result.now ≡ self.now.link }
    {
        &self.link
    }

    /// Frames that are read may have so many bytes, at least 512.
    pub fn set_decoder_max_frame_size(&mut self, size: usize)
        ensures { self.new ≡ record self.old { decoder = max 512 size } }
    {
        self.decoder = MIN_MAX_FRAME_SIZE.max(size);
    }

    /// Frames that are written may have so many bytes, at least 512.
    pub fn set_encoder_max_frame_size(&mut self, size: usize)
        ensures { self.new ≡ record self.old { encoder = max 512 size } }
    {
        self.encoder = MIN_MAX_FRAME_SIZE.max(size);
    }

    /// The most bytes of a frame that is read.
    pub fn decoder_max_frame_size(&self) -> usize
        ensures value { result ≡ self.now.decoder }
        ensures least { 512 ≤ result }
    {
        self.decoder
    }

    /// The most bytes of a frame that is written.
    pub fn encoder_max_frame_size(&self) -> usize
        ensures value { result ≡ self.now.encoder }
        ensures least { 512 ≤ result }
    {
        self.encoder
    }

    /// Whether all that was read was given.
    pub fn is_drained(&self) -> bool
        ensures { result ≡ (length self.now.input == 0) }
    {
        self.input.is_empty()
    }

    /// Whether nothing is left to be written.
    pub fn is_flushed(&self) -> bool
        ensures { IsTrue result ↔ (self.now.output ≡ []) }
    {
        self.output.is_empty()
    }

    /// Whether eight bytes are there that were read and not given.
    pub fn has_header(&self) -> bool
        ensures yes { result ≡ true → 8 ≤ length self.now.input }
        ensures no { result ≡ false → length self.now.input < 8 }
    {
        self.input.has_header()
    }

    /// What the input begins with, for frames of this type with at most so many bytes (part 2, section 2.3).
    pub fn front(&self, kind: u8, limit: usize) -> Front
        requires { 8 ≤ limit }
        ensures { IsFront kind limit self.now.input result }
    {
        self.input.front(kind, limit)
    }

    /// Reads the link once, at most 4096 bytes. Room is made before the read, so that no byte that moved is lost. An `Err`
    /// changes nothing.
    pub fn fill(&mut self) -> Result<Filled, AllocError>
        ensures filled { FilledBy L.Link self.old.input self.old.link result self.new.input self.new.link }
        ensures rest { self.new ≡ record self.old { link = self.new.link; input = self.new.input } }
        ensures most { length self.new.input ≤ length self.old.input + 4096 }
    {
        self.input.fill(&mut self.link)
    }

    /// The first eight bytes of the input.
    pub fn header(&self) -> [u8; 8]
        requires { 8 ≤ length self.now.input }
        ensures { result ≡ take 8 self.now.input }
    {
        self.input.header()
    }

    /// Takes the first eight bytes off the input. The one error is want of memory, which changes nothing.
    pub fn take_header(&mut self) -> Result<(), AllocError>
        requires { 8 ≤ length self.old.input }
        ensures ok { OnOk result (self.new ≡ record self.old { input = drop 8 self.old.input }) }
        ensures err { OnErr result (self.new ≡ self.old) }
    {
        self.input.take_header(self.alloc)
    }

    /// The body of the first frame, which stays; it shares the memory of what was read. The one error is want of memory.
    pub fn body(&mut self, size: usize, start: usize) -> Result<Bytes, AllocError>
        requires { (kind limit channel : ℕ) × HasBody kind limit self.old.input size start channel }
        ensures body { IfOk result (λ b. b ≡ drop start (take size self.old.input)) }
        ensures same { self.new ≡ self.old }
    {
        self.input.body(size, start)
    }

    /// The bytes of the first frame.
    pub fn frame(&self, size: usize) -> &[u8]
        requires { (kind limit start channel : ℕ) × HasBody kind limit self.now.input size start channel }
        ensures { result.now ≡ take size self.now.input }
    {
        self.input.frame(size)
    }

    /// Takes the first frame off the input.
    pub fn take_frame(&mut self, size: usize)
        requires { (kind limit start channel : ℕ) × HasBody kind limit self.old.input size start channel }
        ensures { self.new ≡ record self.old { input = drop size self.old.input } }
    {
        self.input.take_frame(size);
    }

    /// Queues bytes as they are. An `Err` changes nothing.
    pub fn queue(&mut self, bytes: &[u8]) -> Result<(), AllocError>
        ensures ok { OnOk result (self.new ≡ record self.old { output = self.old.output ++ bytes.now }) }
        ensures err { OnErr result (self.new ≡ self.old) }
    {
        self.output.extend_from_slice(bytes)?;
        Ok(())
    }

    /// Queues a frame whole (part 2, section 2.3). An `Err` changes nothing.
    pub fn queue_frame(&mut self, kind: u8, channel: u16, body: &[u8]) -> Result<(), AllocError>
        requires { 8 + length body.now < 2 ^ 32 }
        ensures ok { OnOk result (self.new ≡ record self.old { output = self.old.output ++ frame_of kind channel body.now }) }
        ensures err { OnErr result (self.new ≡ self.old) }
    {
        put_frame(&mut self.output, kind, channel, body)
    }

    /// Writes until nothing is left, or a write takes nothing.
    pub fn flush(&mut self) -> Option<Held>
        ensures { Flushed L.Link self.old result self.new }
    {
        while !self.output.is_empty() {
            match self.link.write(self.output.as_slice()) {
                LinkWrite::Took(count) => self.output.advance(count),
                LinkWrite::Full => return Some(Held::Full),
                LinkWrite::Failed => return Some(Held::Failed),
                LinkWrite::Memory => return Some(Held::Memory),
            }
        }
        None
    }

    /// Gives the link back. What was read and not taken, and what was not written, is lost.
    pub fn into_link(self) -> L
        ensures { result ≡ self.link }
    {
        self.link
    }
}
