//! What bytes begin with: a protocol header or a frame (OASIS AMQP 1.0, part 2, sections 2.2 and 2.3; part 5, section 5.3.1).
#![tactic(auto)]

ghost use Rattle.std.specs.Prelude.{◌≡◌, ◌≢◌, true, false, slice_index, ◌↔◌, ◌≤◌, ◌<◌, ℕ, List, length, IsTrue, IfOk, IfErr, MatchResult};
ghost use Rattle.amqp_pieces.specs.declared.Piece.{Piece};
ghost use Rattle.amqp_pieces.specs.declared.Fault.{Fault};
ghost use Rattle.amqp_pieces.specs.Pieces.{HasLetters, Begins, BeginsNone, type_of, size_of_piece};

use amqp_wire::frame::{Front, front_of};

/// The most bytes that a frame may have here.
pub const LARGEST_FRAME: usize = 16_777_216;

/// What a frame may hold.
#[derive(Clone, Copy, Debug, PartialEq, Eq)]
pub enum FrameKind {
    /// A performative, or nothing.
    Amqp,
    /// A part of a SASL dialog.
    Sasl,
}

/// What bytes may begin with.
#[derive(Clone, Copy, Debug, PartialEq, Eq)]
pub enum Piece {
    /// A protocol header: the letters `AMQP` and these four bytes.
    Header {
        /// Which protocol: 0 for AMQP, 2 for TLS, 3 for SASL.
        protocol: u8,
        /// The first number of its version.
        major: u8,
        /// The second number of its version.
        minor: u8,
        /// The third number of its version.
        revision: u8,
    },
    /// A frame.
    Frame {
        /// What it may hold.
        kind: FrameKind,
        /// Its channel.
        channel: u16,
        /// Where its body begins, in bytes.
        start: usize,
        /// Its bytes, all together.
        size: usize,
    },
}

/// Why bytes begin with neither.
#[derive(Clone, Copy, Debug, PartialEq, Eq)]
pub enum Fault {
    /// They end before the header or the frame does.
    CutShort,
    /// The size is below 8 bytes or above 16,777,216, or the body would begin in the first 8 bytes or behind the frame's end.
    Size,
    /// The frame is of another type.
    Type,
}

fn has_letters(bytes: &[u8]) -> bool
    ensures { IsTrue result ↔ HasLetters bytes.now }
{
    bytes.len() >= 4 && bytes[0] == b'A' && bytes[1] == b'M' && bytes[2] == b'Q' && bytes[3] == b'P'
}

fn is_sasl(bytes: &[u8]) -> bool
    ensures yes { result ≡ true → slice_index bytes.now 5 ≡ 1 }
    ensures no { result ≡ false → 5 < length bytes.now → slice_index bytes.now 5 ≢ 1 }
{
    bytes.len() > 5 && bytes[5] == 1
}

fn frame_at(bytes: &[u8]) -> Result<Piece, Fault>
    requires { HasLetters bytes.now → ⊥ }
    ensures { MatchResult result (Begins bytes.now) (BeginsNone bytes.now) }
{
    let kind = if is_sasl(bytes) {
        FrameKind::Sasl
    } else {
        FrameKind::Amqp
    };
    let number = match kind {
        FrameKind::Sasl => 1,
        FrameKind::Amqp => 0,
    };
    match front_of(number, LARGEST_FRAME, bytes) {
        Front::Whole {
            size,
            start,
            channel,
        } => Ok(Piece::Frame {
            kind,
            channel,
            start,
            size,
        }),
        Front::Partial => Err(Fault::CutShort),
        Front::Refused => Err(Fault::Size),
        Front::Foreign => Err(Fault::Type),
    }
}

/// What the bytes begin with, or why they begin with neither.
pub fn piece_at(bytes: &[u8]) -> Result<Piece, Fault>
    ensures piece { MatchResult result (Begins bytes.now) (BeginsNone bytes.now) }
    ensures size { IfOk result (λ piece. size_of_piece piece ≤ length bytes.now) }
    ensures some { IfOk result (λ piece. 8 ≤ size_of_piece piece) }
{
    if !has_letters(bytes) {
        return frame_at(bytes);
    }
    if bytes.len() < 8 {
        return Err(Fault::CutShort);
    }
    Ok(Piece::Header {
        protocol: bytes[4],
        major: bytes[5],
        minor: bytes[6],
        revision: bytes[7],
    })
}

impl Piece {
    /// How many bytes it has.
    pub fn size(self) -> usize
        ensures { result ≡ size_of_piece self }
    {
        match self {
            Piece::Header { .. } => 8,
            Piece::Frame { size, .. } => size,
        }
    }
}

/// Bytes that begin with neither begin with no piece.
pub fn begins_or_not()
    ensures { (bytes : List ℕ) (piece : Piece) (fault : Fault) → Begins bytes piece → BeginsNone bytes fault → ⊥ }
{}

/// Bytes begin with one piece at most.
pub fn begins_with_one()
    ensures { (bytes : List ℕ) (one other : Piece) → Begins bytes one → Begins bytes other → one ≡ other }
{}
