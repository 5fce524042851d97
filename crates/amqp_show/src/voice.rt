//! What an end says: its headers and frames, each where it ends.
ghost use Rattle.std.specs.Prelude.{◌≡◌, ◌++◌, ◌≤◌, [], Some, length, OnOk, IfOk};
ghost use Rattle.amqp_show.specs.Voice.{other, arrow, spoken_text, is_final, stop_text, cut_text, Speaks, Writes, unsaid, left_of};

use amqp_conversation::said::{Reason, SaidError, said_at};
use amqp_shown::bytes::push_word;
use amqp_shown::value::push_number;
use std::alloc::{AllocError, Global};

/// An end of the connection.
#[derive(Clone, Copy, Debug, PartialEq, Eq)]
pub enum Side {
    /// The client.
    Client,
    /// The listener.
    Listener,
}

impl Side {
    /// The other end.
    pub fn other(self) -> Self
        ensures { result ≡ other self }
    {
        match self {
            Side::Client => Side::Listener,
            Side::Listener => Side::Client,
        }
    }

    /// The arrow before what it says.
    fn arrow(self) -> &'static str
        ensures { result.now ≡ arrow self }
    {
        match self {
            Side::Client => "-> ",
            Side::Listener => "<- ",
        }
    }
}

/// What an end wrote and has not said.
#[derive(Debug, Drop)]
pub struct Voice {
    /// The bytes that are no whole header or frame yet.
    pub waiting: Vec<u8>,
    /// Whether its bytes began neither, so that no more is shown of it.
    pub is_over: bool,
}

/// What was said of bytes.
#[derive(Debug, Drop)]
pub struct Spoken {
    /// A line for each header and frame.
    pub text: Vec<u8>,
    /// Where they end, in bytes.
    pub end: usize,
    /// Whether the bytes there begin neither.
    pub is_over: bool,
}

/// Adds a line of what an end says.
fn push_spoken(out: &mut Vec<u8>, side: Side, said: &[u8]) -> Result<(), AllocError>
    ensures { OnOk result (out.new.items ≡ out.old.items ++ spoken_text side said.now) }
{
    push_word(out, "    ")?;
    push_word(out, side.arrow())?;
    out.extend_from_slice(said)?;
    push_word(out, "\n")
}

/// Whether bytes that begin neither a header nor a frame never will.
fn is_final_reason(reason: Reason) -> bool
    ensures { result ≡ is_final reason }
{
    match reason {
        Reason::CutShort => false,
        Reason::Size | Reason::Type | Reason::Body => true,
    }
}

/// Adds the reason why bytes begin neither a header nor a frame, and nothing where they are cut short.
fn push_stop(out: &mut Vec<u8>, side: Side, reason: Reason) -> Result<(), AllocError>
    ensures { OnOk result (out.new.items ≡ out.old.items ++ stop_text side reason) }
{
    match reason {
        Reason::CutShort => Ok(()),
        Reason::Size => push_spoken(out, side, b"bad bytes: sizes that do not agree"),
        Reason::Type => push_spoken(out, side, b"bad bytes: another type of frame"),
        Reason::Body => push_spoken(out, side, b"bad bytes: no body of a frame"),
    }
}

/// What was said of bytes that begin neither a header nor a frame from a place on.
fn stopped(text: Vec<u8>, end: usize, side: Side, reason: Reason) -> Result<Spoken, AllocError>
    ensures text { IfOk result (λ s. s.text.items ≡ text.items ++ stop_text side reason) }
    ensures end { IfOk result (λ s. s.end ≡ end) }
    ensures is_over { IfOk result (λ s. s.is_over ≡ is_final reason) }
{
    let mut text = text;
    push_stop(&mut text, side, reason)?;
    Ok(Spoken {
        text,
        end,
        is_over: is_final_reason(reason),
    })
}

/// The lines of the headers and frames that bytes begin with, up to the first that is not whole or is none.
fn speak(alloc: Global, side: Side, bytes: &[u8]) -> Result<Spoken, AllocError>
    ensures speaks { IfOk result (λ s. Speaks side bytes.now s.text.items (left_of s bytes.now)) }
    ensures within { IfOk result (λ s. s.end ≤ length bytes.now) }
{
    let mut text = Vec::new(alloc);
    let mut end = 0usize;
    'pieces: while end < bytes.len() {
        let said = match said_at(alloc, &bytes[end..]) {
            Ok(said) => said,
            Err(SaidError::Memory(error)) => return Err(error),
            Err(SaidError::Bad(reason)) => {
                let spoken = stopped(text, end, side, reason)?;
                return Ok(spoken);
            }
        };
        push_spoken(&mut text, side, said.text.as_slice())?;
        end += said.size;
    }
    Ok(Spoken {
        text,
        end,
        is_over: false,
    })
}

/// The same bytes.
fn copied(alloc: Global, bytes: &[u8]) -> Result<Vec<u8>, AllocError>
    ensures { IfOk result (λ copy. copy.items ≡ bytes.now) }
{
    let mut copy = Vec::new(alloc);
    copy.extend_from_slice(bytes)?;
    Ok(copy)
}

impl Voice {
    /// An end that wrote nothing; takes no memory.
    pub fn new(alloc: Global) -> Self
        ensures { unsaid result ≡ Some [] }
    {
        Voice {
            waiting: Vec::new(alloc),
            is_over: false,
        }
    }

    /// The lines of what it says with these bytes more; the one error is want of memory.
    pub fn writes(&mut self, alloc: Global, side: Side, bytes: &[u8]) -> Result<Vec<u8>, AllocError>
        ensures { IfOk result (λ text. Writes side (unsaid self.old) bytes.now text.items (unsaid self.new)) }
    {
        if self.is_over {
            return Ok(Vec::new(alloc));
        }
        self.waiting.extend_from_slice(bytes)?;
        let spoken = speak(alloc, side, self.waiting.as_slice())?;
        if spoken.end > 0 {
            let rest = copied(alloc, &self.waiting[spoken.end..])?;
            self.waiting = rest;
        }
        self.is_over = spoken.is_over;
        Ok(spoken.text)
    }

    /// Adds a line `-> cut short N bytes` of what it has not said, where there is some.
    pub fn push_cut(&self, alloc: Global, side: Side, out: &mut Vec<u8>) -> Result<(), AllocError>
        ensures { OnOk result (out.new.items ≡ out.old.items ++ cut_text side (unsaid self.now)) }
    {
        if self.is_over || self.waiting.is_empty() {
            return Ok(());
        }
        push_word(out, side.arrow())?;
        push_word(out, "cut short ")?;
        push_number(alloc, out, self.waiting.len() as u64)?;
        push_word(out, " bytes\n")
    }
}
