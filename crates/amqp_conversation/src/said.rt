//! What the header or the frame at the front of bytes says.
ghost use Rattle.std.specs.Prelude.{◌≡◌, ◌++◌, ◌≤◌, ℕ, List, length, OnOk, IfOk, IsErrOf};
ghost use Rattle.amqp_pieces.specs.declared.Piece.TheVariants.{Frame};
ghost use Rattle.amqp_pieces.specs.Pieces.{Begins, size_of_piece};
ghost use Rattle.amqp_lines.specs.Bodies.{sasl_text};
ghost use Rattle.amqp_conversation.specs.declared.said.Reason.{Reason};
ghost use Rattle.amqp_conversation.specs.Said.{protocol_text, header_text, channel_text, IsFrameText, Says, HasBadBody, IsBad};
ghost use Rattle.amqp_conversation.specs.Reading.{SaysAmqp, SaysSasl, SpellsNoBody, SpellsNoSasl, GivesText, refusal_of, reason_for};
ghost use Rattle.amqp_conversation.specs.declared.said.SaidError.TheVariants.{Memory};

use amqp_fields::BaseError;
use amqp_frames::{FrameBody, decode_body, let_go};
use amqp_lines::bodies::push_body;
use amqp_lines::sasl::push_sasl;
use amqp_pieces::{Fault, FrameKind, Piece, piece_at};
use amqp_sasl_bodies::{SaslBody, decode_sasl};
use amqp_shown::bytes::push_word;
use amqp_shown::value::push_number;
use std::alloc::{AllocError, Global};
use std::fmt;

/// Why bytes begin with neither a protocol header nor a frame.
#[derive(Clone, Copy, Debug, PartialEq, Eq)]
pub enum Reason {
    /// They end before the header or the frame does.
    CutShort,
    /// The size is below 8 bytes or above 16,777,216, or the body would begin in the first 8 bytes or behind the frame's end.
    Size,
    /// The frame is neither of AMQP nor of SASL.
    Type,
    /// The frame's body is none that its type has.
    Body,
}

impl fmt::Display for Reason {
    fn fmt<W: fmt::Write>(&self, f: &mut fmt::Formatter<W>) -> fmt::Result {
        match self {
            Reason::CutShort => f.write_str("cut short"),
            Reason::Size => f.write_str("sizes that do not agree"),
            Reason::Type => f.write_str("another type of frame"),
            Reason::Body => f.write_str("no body of a frame"),
        }
    }
}

/// Why bytes say nothing.
#[derive(Clone, Copy, Debug, PartialEq, Eq)]
pub enum SaidError {
    /// There was not enough memory.
    Memory(AllocError),
    /// The bytes begin with neither a header nor a frame.
    Bad(Reason),
}

impl From<AllocError> for SaidError {
    ghost from_gives = { λ a e. e ≡ Memory a };

    fn from(error: AllocError) -> Self {
        SaidError::Memory(error)
    }
}

/// What a header or a frame says.
#[derive(Debug, Drop)]
pub struct Said {
    /// How many bytes it has.
    pub size: usize,
    /// Its text, without a line feed.
    pub text: Vec<u8>,
}

fn push_protocol(alloc: Global, out: &mut Vec<u8>, protocol: u8) -> Result<(), AllocError>
    ensures { OnOk result (out.new.items ≡ out.old.items ++ protocol_text protocol) }
{
    match protocol {
        0 => push_word(out, "AMQP"),
        2 => push_word(out, "TLS"),
        3 => push_word(out, "SASL"),
        _ => push_number(alloc, out, u64::from(protocol)),
    }
}

fn push_header(
    alloc: Global,
    out: &mut Vec<u8>,
    protocol: u8,
    version: (u8, u8, u8),
) -> Result<(), AllocError>
    ensures { let said = header_text protocol version.0 version.1 version.2 in
        OnOk result (out.new.items ≡ out.old.items ++ said) }
{
    let (major, minor, revision) = version;
    push_word(out, "header ")?;
    push_protocol(alloc, out, protocol)?;
    push_word(out, " ")?;
    push_number(alloc, out, u64::from(major))?;
    push_word(out, ".")?;
    push_number(alloc, out, u64::from(minor))?;
    push_word(out, ".")?;
    push_number(alloc, out, u64::from(revision))
}

/// A channel in brackets.
fn channel_line(alloc: Global, channel: u16) -> Result<Vec<u8>, AllocError>
    ensures { IfOk result (λ text. text.items ≡ channel_text channel) }
{
    let mut text = Vec::new(alloc);
    push_word(&mut text, "[")?;
    push_number(alloc, &mut text, u64::from(channel))?;
    push_word(&mut text, "] ")?;
    Ok(text)
}

/// The text of a frame of AMQP.
fn amqp_line(alloc: Global, channel: u16, body: &FrameBody) -> Result<Vec<u8>, AllocError>
    ensures { IfOk result (λ text. IsFrameText channel body.now text.items) }
{
    let mut text = channel_line(alloc, channel)?;
    push_body(alloc, &mut text, body)?;
    Ok(text)
}

/// The text of a SASL frame.
fn sasl_line(alloc: Global, body: &SaslBody) -> Result<Vec<u8>, AllocError>
    ensures { IfOk result (λ text. text.items ≡ sasl_text body.now) }
{
    let mut text = Vec::new(alloc);
    push_sasl(alloc, &mut text, body)?;
    Ok(text)
}

/// Why a body says nothing: all but want of memory says that it is none.
fn refusal(error: BaseError) -> SaidError
    ensures { result ≡ refusal_of error }
{
    match error {
        BaseError::Memory(error) => SaidError::Memory(error),
        BaseError::Decode | BaseError::Size => SaidError::Bad(Reason::Body),
    }
}

/// What the body of a frame of AMQP says.
fn amqp_said(alloc: Global, channel: u16, body: &[u8]) -> Result<Vec<u8>, SaidError>
    ensures { GivesText (λ text. text.items) result (SaysAmqp channel body.now) (SpellsNoBody body.now) }
{
    match decode_body(alloc, body) {
        Ok(body) => {
            let text = amqp_line(alloc, channel, &body);
            let_go(body);
            match text {
                Ok(text) => Ok(text),
                Err(error) => Err(SaidError::Memory(error)),
            }
        }
        Err(error) => Err(refusal(error)),
    }
}

/// What the body of a SASL frame says.
fn sasl_said(alloc: Global, body: &[u8]) -> Result<Vec<u8>, SaidError>
    ensures { GivesText (λ text. text.items) result (SaysSasl body.now) (SpellsNoSasl body.now) }
{
    match decode_sasl(alloc, body) {
        Ok(body) => match sasl_line(alloc, &body) {
            Ok(text) => Ok(text),
            Err(error) => Err(SaidError::Memory(error)),
        },
        Err(error) => Err(refusal(error)),
    }
}

/// What a header says.
fn header_said(alloc: Global, protocol: u8, version: (u8, u8, u8)) -> Result<Vec<u8>, AllocError>
    ensures { IfOk result (λ text. text.items ≡ header_text protocol version.0 version.1 version.2) }
{
    let mut text = Vec::new(alloc);
    push_header(alloc, &mut text, protocol, version)?;
    Ok(text)
}

fn reason_of(fault: Fault) -> Reason
    ensures { result ≡ reason_for fault }
{
    match fault {
        Fault::CutShort => Reason::CutShort,
        Fault::Size => Reason::Size,
        Fault::Type => Reason::Type,
    }
}

/// What a frame says that the bytes begin with.
fn frame_said(
    alloc: Global,
    bytes: &[u8],
    kind: FrameKind,
    channel: u16,
    start: usize,
    size: usize,
) -> Result<Vec<u8>, SaidError>
    requires begins { Begins bytes.now (Frame kind channel start size) }
    requires size { size ≤ length bytes.now }
    ensures { GivesText (λ text. text.items) result (Says bytes.now size) (HasBadBody bytes.now) }
{
    match kind {
        FrameKind::Amqp => amqp_said(alloc, channel, &bytes[start..size]),
        FrameKind::Sasl => sasl_said(alloc, &bytes[start..size]),
    }
}

/// What a header or a frame says that the bytes begin with.
fn piece_said(alloc: Global, bytes: &[u8], piece: Piece) -> Result<Vec<u8>, SaidError>
    requires begins { Begins bytes.now piece }
    requires size { size_of_piece piece ≤ length bytes.now }
    ensures { GivesText (λ text. text.items) result (Says bytes.now (size_of_piece piece)) (HasBadBody bytes.now) }
{
    match piece {
        Piece::Header {
            protocol,
            major,
            minor,
            revision,
        } => match header_said(alloc, protocol, (major, minor, revision)) {
            Ok(text) => Ok(text),
            Err(error) => Err(SaidError::Memory(error)),
        },
        Piece::Frame {
            kind,
            channel,
            start,
            size,
        } => frame_said(alloc, bytes, kind, channel, start, size),
    }
}

/// What the header or the frame says that the bytes begin with: `Bad` exactly where they begin with none.
pub fn said_at(alloc: Global, bytes: &[u8]) -> Result<Said, SaidError>
    ensures ok { IfOk result (λ said. Says bytes.now said.size said.text.items) }
    ensures size { IfOk result (λ said. (8 ≤ said.size) × (said.size ≤ length bytes.now)) }
    ensures bad { (r : Reason) → IsErrOf result (SaidError.Bad r) → IsBad bytes.now r }
{
    let piece = match piece_at(bytes) {
        Ok(piece) => piece,
        Err(fault) => return Err(SaidError::Bad(reason_of(fault))),
    };
    let text = piece_said(alloc, bytes, piece)?;
    Ok(Said {
        size: piece.size(),
        text,
    })
}

/// Bytes that are bad say nothing.
pub fn bad_bytes_say_nothing()
    ensures { (bytes : List ℕ) (reason : Reason) (size : ℕ) (said : List ℕ) → IsBad bytes reason → Says bytes size said → ⊥ }
{}
