//! A stream of bytes as lines.
ghost use Rattle.std.specs.Prelude.{◌≡◌, ◌++◌, ◌≤◌, length, OnOk, IfOk};
ghost use Rattle.amqp_conversation.specs.Shows.{line_text, IsDecoded};

use crate::said::{Reason, SaidError, said_at};
use crate::why::why;
use amqp_body_faults::Fault;
use amqp_shown::bytes::push_word;
use amqp_shown::value::push_number;
use std::alloc::{AllocError, Global};

/// The first byte that begins neither a protocol header nor a frame.
#[derive(Clone, Copy, Debug, PartialEq, Eq)]
pub struct BadBytes {
    /// How many bytes stand before it.
    pub offset: usize,
    /// Why.
    pub reason: Reason,
    /// Where and why the body is none of the frame that begins there, counted from the frame's first byte on.
    pub fault: Option<Fault>,
}

/// The lines of a stream of bytes.
#[derive(Debug, Drop)]
pub struct Decoded {
    /// The lines of the headers and frames, in order.
    pub text: Vec<u8>,
    /// Where they end before the bytes do.
    pub bad: Option<BadBytes>,
}

/// Adds `OFFSET SIZE TEXT` and a line feed.
fn push_line(
    alloc: Global,
    out: &mut Vec<u8>,
    offset: usize,
    size: usize,
    text: &[u8],
) -> Result<(), AllocError>
    ensures { OnOk result (out.new.items ≡ out.old.items ++ line_text offset size text.now) }
{
    push_number(alloc, out, offset as u64)?;
    push_word(out, " ")?;
    push_number(alloc, out, size as u64)?;
    push_word(out, " ")?;
    out.extend_from_slice(text)?;
    push_word(out, "\n")
}

/// The lines of the headers and frames that the bytes are, in order, up to the first byte that begins none: `OFFSET SIZE TEXT`
/// each, offset and size in bytes. The one error is want of memory.
pub fn decode(alloc: Global, bytes: &[u8]) -> Result<Decoded, AllocError>
    ensures decoded { IfOk result (λ d. IsDecoded bytes.now d.text.items d.bad) }
{
    let mut text = Vec::new(alloc);
    let mut offset = 0usize;
    'pieces: while offset < bytes.len() {
        let said = match said_at(alloc, &bytes[offset..]) {
            Ok(said) => said,
            Err(SaidError::Memory(error)) => return Err(error),
            Err(SaidError::Bad(reason)) => {
                let fault = why(alloc, &bytes[offset..])?;
                let bad = BadBytes {
                    offset,
                    reason,
                    fault,
                };
                return Ok(Decoded {
                    text,
                    bad: Some(bad),
                });
            }
        };
        push_line(alloc, &mut text, offset, said.size, said.text.as_slice())?;
        offset += said.size;
    }
    Ok(Decoded { text, bad: None })
}
