//! Why the body of a frame is none.
ghost use Rattle.std.specs.Prelude.{◌≡◌, ◌+◌, ◌<◌, ◌≤◌, ◌^◌, length, IfOk, IfSome};
ghost use Rattle.amqp_pieces.specs.Pieces.{Begins, size_of_piece};
ghost use Rattle.amqp_pieces.specs.declared.FrameKind.TheVariants.{Amqp, Sasl};
ghost use Rattle.amqp_conversation.specs.Why.{HasFrame, IsWhy};

use amqp_body_faults::{Fault, fault_in_body, fault_in_sasl};
use amqp_pieces::{FrameKind, Piece, piece_at};
use std::alloc::{AllocError, Global};

/// Where and why the body is none of the frame that the bytes begin with, counted from the frame's first byte on. None where they begin
/// with no frame, or its body is one. The one error is want of memory.
pub fn why(alloc: Global, bytes: &[u8]) -> Result<Option<Fault>, AllocError>
    ensures { IfOk result (λ o. IfSome o (IsWhy bytes.now)) }
{
    match piece_at(bytes) {
        Ok(piece) => piece_fault(alloc, bytes, piece),
        Err(_) => Ok(None),
    }
}

/// The same of a header or a frame.
fn piece_fault(alloc: Global, bytes: &[u8], piece: Piece) -> Result<Option<Fault>, AllocError>
    requires begins { Begins bytes.now piece }
    requires size { size_of_piece piece ≤ length bytes.now }
    ensures { IfOk result (λ o. IfSome o (IsWhy bytes.now)) }
{
    match piece {
        Piece::Header { .. } => Ok(None),
        Piece::Frame {
            kind,
            start,
            size,
            ..
        } => frame_fault(alloc, bytes, kind, start, size),
    }
}

/// The same of a frame whose body has these ends.
fn frame_fault(
    alloc: Global,
    bytes: &[u8],
    kind: FrameKind,
    start: usize,
    size: usize,
) -> Result<Option<Fault>, AllocError>
    requires { HasFrame bytes.now kind start size }
    ensures { IfOk result (λ o. IfSome o (IsWhy bytes.now)) }
{
    match kind {
        FrameKind::Amqp => amqp_fault(alloc, bytes, start, size),
        FrameKind::Sasl => sasl_fault(alloc, bytes, start, size),
    }
}

/// The fault so many bytes further on.
fn behind(fault: Fault, start: usize) -> Fault
    requires { start + fault.offset < 2 ^ 64 }
    ensures { result ≡ record { offset = start + fault.offset; reason = fault.reason } }
{
    Fault {
        offset: start + fault.offset,
        reason: fault.reason,
    }
}

fn amqp_fault(
    alloc: Global,
    bytes: &[u8],
    start: usize,
    size: usize,
) -> Result<Option<Fault>, AllocError>
    requires { HasFrame bytes.now Amqp start size }
    ensures { IfOk result (λ o. IfSome o (IsWhy bytes.now)) }
{
    match fault_in_body(alloc, &bytes[start..size])? {
        Some(fault) => Ok(Some(behind(fault, start))),
        None => Ok(None),
    }
}

fn sasl_fault(
    alloc: Global,
    bytes: &[u8],
    start: usize,
    size: usize,
) -> Result<Option<Fault>, AllocError>
    requires { HasFrame bytes.now Sasl start size }
    ensures { IfOk result (λ o. IfSome o (IsWhy bytes.now)) }
{
    match fault_in_sasl(alloc, &bytes[start..size])? {
        Some(fault) => Ok(Some(behind(fault, start))),
        None => Ok(None),
    }
}
