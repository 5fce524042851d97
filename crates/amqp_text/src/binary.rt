//! Sequences of octets (OASIS AMQP 1.0, part 1, section 1.6.19).
ghost use Rattle.std.specs.Prelude.{◌≡◌, ◌↔◌, List, ℕ, [], ◌∷◌, ◌++◌, length, IsTrue, IfOk, OnOk, OnErr};

use bytes::Bytes;
use smallvec::SmallVec;
use std::alloc::{AllocError, Global};
use std::convert::AsSlice;
use std::fmt::{self, Debug, Formatter};
use std::marker::Model;

/// How many bytes a binary holds in its own place, without memory of its own.
const SHORT: usize = 16;

/// Bytes that own their memory, seen as the list of them.
pub struct Binary {
    bytes: SmallVec<u8, SHORT>,
}

// A binary is let go by a call, so that no caller sees where its bytes lie.
impl Drop for Binary {
    fn drop(self) {
        let Binary { bytes } = self;
        drop(bytes);
    }
}

impl Model for Binary {
    ghost Value = { List ℕ };

    ghost view = { λ b. b.bytes.items };
}

impl Binary {
    /// No bytes; takes no memory.
    pub fn new(alloc: Global) -> Self
        ensures { result ≡ [] }
    {
        Binary {
            bytes: SmallVec::new(alloc),
        }
    }

    /// No bytes, with room for so many; the one error is want of memory.
    pub fn with_capacity(alloc: Global, capacity: usize) -> Result<Self, AllocError>
        ensures { IfOk result (λ b. b ≡ []) }
    {
        let bytes = SmallVec::with_capacity(alloc, capacity)?;
        Ok(Binary { bytes })
    }

    /// A copy of `bytes`; the one error is want of memory.
    pub fn from_slice(alloc: Global, bytes: &[u8]) -> Result<Self, AllocError>
        ensures { IfOk result (λ b. b ≡ bytes.now) }
    {
        let bytes = SmallVec::from_slice(alloc, bytes)?;
        Ok(Binary { bytes })
    }

    /// The same bytes; more than a few are not copied.
    pub fn from_vec(bytes: Vec<u8>) -> Self
        ensures { result ≡ bytes.items }
    {
        Binary {
            bytes: SmallVec::from_vec(bytes),
        }
    }

    /// The same bytes; more than a few are not copied. The one error is want of memory.
    pub fn into_vec(self) -> Result<Vec<u8>, AllocError>
        ensures { IfOk result (λ v. v.items ≡ self) }
    {
        let Binary { bytes } = self;
        let vec = bytes.into_vec()?;
        Ok(vec)
    }

    /// The same bytes, to be shared; more than a few are not copied. The one error is want of memory.
    pub fn into_bytes(self) -> Result<Bytes, AllocError>
        ensures { IfOk result (λ b. b ≡ self) }
    {
        let vec = self.into_vec()?;
        let bytes = Bytes::from_vec(vec)?;
        Ok(bytes)
    }

    /// The bytes, lent.
    pub fn as_slice(&self) -> &[u8]
        ensures { result.now ≡ self.now }
    {
        self.bytes.as_slice()
    }

    /// The number of bytes.
    pub fn len(&self) -> usize
        ensures { result ≡ length self.now }
    {
        self.bytes.len()
    }

    /// Whether there are none.
    pub fn is_empty(&self) -> bool
        ensures { IsTrue result ↔ (self.now ≡ []) }
    {
        self.bytes.as_slice().is_empty()
    }

    /// Adds `piece` at the end; want of memory leaves the bytes as they were.
    pub fn append(&mut self, piece: &[u8]) -> Result<(), AllocError>
        ensures ok { OnOk result (self.new ≡ self.old ++ piece.now) }
        ensures err { OnErr result (self.new ≡ self.old) }
    {
        self.bytes.extend_from_slice(piece)?;
        Ok(())
    }

    /// Adds one byte at the end; want of memory leaves the bytes as they were.
    pub fn push(&mut self, byte: u8) -> Result<(), AllocError>
        ensures ok { OnOk result (self.new ≡ self.old ++ byte ∷ []) }
        ensures err { OnErr result (self.new ≡ self.old) }
    {
        self.bytes.push(byte)?;
        Ok(())
    }

    /// A copy; the one error is want of memory.
    pub fn try_clone(&self, alloc: Global) -> Result<Self, AllocError>
        ensures { IfOk result (λ b. b ≡ self.now) }
    {
        Binary::from_slice(alloc, self.as_slice())
    }
}

impl AsSlice<u8> for Binary {
    ghost items = { λ b. b };

    fn as_slice(&self) -> &[u8] {
        self.bytes.as_slice()
    }
}

/// As a byte string literal of Rust's, `b".."`.
impl Debug for Binary {
    fn fmt<W: fmt::Write>(&self, f: &mut Formatter<W>) -> fmt::Result {
        f.write_str("b\"")?;
        write!(f, "{}", self.bytes.as_slice().escape_ascii())?;
        f.write_str("\"")
    }
}
