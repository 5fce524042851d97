//! What a trace tells of a step.
ghost use Rattle.std.specs.Prelude.{◌≡◌, ◌++◌, OnOk, IfOk, option_map};
ghost use Rattle.amqp_show.specs.Left.{lines_left};
ghost use Rattle.amqp_show.specs.Voice.{unsaid};
ghost use Rattle.amqp_show.specs.Told.{wrote_in, reply_text, AddsTold, Tells, front_of};

use crate::lines::{Lines, behind};
use crate::voice::{Side, Voice};
use amqp_shown::bytes::push_word;
use amqp_shown::value::push_number;
use hex::FromHexError;
use std::alloc::{AllocError, Global};

/// What a trace told of a step.
#[derive(Debug, Drop)]
pub struct Told<'a> {
    /// A line for each reply, header and frame.
    pub text: Vec<u8>,
    /// What follows in the trace.
    pub rest: Lines<'a>,
}

/// The bytes that a line tells of behind its step: `wrote HEX`.
fn wrote(alloc: Global, told: &[u8]) -> Result<Option<Vec<u8>>, AllocError>
    ensures { IfOk result (λ o. option_map (λ v. v.items) o ≡ wrote_in told.now) }
{
    let Some(digits) = behind(b"wrote ", told) else {
        return Ok(None);
    };
    match hex::decode(alloc, digits) {
        Ok(bytes) => Ok(Some(bytes)),
        Err(FromHexError::OutOfMemory) => Err(AllocError),
        Err(_) => Ok(None),
    }
}

/// The line of a reply.
fn reply(alloc: Global, told: &[u8]) -> Result<Vec<u8>, AllocError>
    ensures { IfOk result (λ text. text.items ≡ reply_text told.now) }
{
    let mut text = Vec::new(alloc);
    push_word(&mut text, "    ")?;
    text.extend_from_slice(told)?;
    push_word(&mut text, "\n")?;
    Ok(text)
}

/// The lines of one line of a trace.
fn told_line(
    alloc: Global,
    side: Side,
    voice: &mut Voice,
    told: &[u8],
) -> Result<Vec<u8>, AllocError>
    ensures { IfOk result (λ text. AddsTold side (wrote_in told.now) told.now (unsaid voice.old) text.items (unsaid voice.new)) }
{
    match wrote(alloc, told)? {
        Some(bytes) => voice.writes(alloc, side, bytes.as_slice()),
        None => reply(alloc, told),
    }
}

/// How the lines of a step begin in a trace: `STEP `.
fn front(alloc: Global, step: u64) -> Result<Vec<u8>, AllocError>
    ensures { IfOk result (λ text. text.items ≡ front_of step) }
{
    let mut text = Vec::new(alloc);
    push_number(alloc, &mut text, step)?;
    push_word(&mut text, " ")?;
    Ok(text)
}

/// What the lines tell of a step that a trace begins with; the one error is want of memory.
pub fn tell<'a>(
    alloc: Global,
    step: u64,
    side: Side,
    voice: &mut Voice,
    trace: Lines<'a>,
) -> Result<Told<'a>, AllocError>
    ensures { IfOk result (λ t. Tells step side (unsaid voice.old) (lines_left trace.entry) t.text.items (unsaid voice.new) (lines_left t.rest)) }
{
    let front = front(alloc, step)?;
    let mut text = Vec::new(alloc);
    let mut rest = trace;
    'lines: while let Some((told, after)) = rest.behind(front.as_slice()) {
        let said = told_line(alloc, side, voice, told)?;
        text.extend_from_slice(said.as_slice())?;
        rest = after;
    }
    Ok(Told { text, rest })
}
