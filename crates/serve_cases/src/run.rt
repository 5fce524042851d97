//! What comes of a case.
//!
//! The first line is `listen`, or `connect` and how many messages are sent. Of the others `link` says with `ends` that the input ends
//! behind the last piece, and with `fails=N,N` which reads, writes and waits of the link fail, counted together from 0; and `hears`
//! gives the next piece, one for each wait. What comes is how the run ended, what it wrote to its sink, and a line `wrote` with the
//! bytes that it wrote to the link.
use crate::error::CaseError;
use crate::later::LaterPipe;
use amqp_end::End;
use amqp_script::script::number::number;
use amqp_serve::{connect_on, serve_on};
use amqp_served::Ending;
use amqp_wire::memory::MemorySink;
use case_files::read_bytes;
use std::alloc::{AllocError, Global};
use std::collections::VecDeque;
use std::sync::Wait;

/// The most messages that a client sends.
const MOST: u64 = 10_000;

/// What the lines behind the first one say of the link.
#[derive(Drop)]
struct LinkLines {
    pieces: VecDeque<Vec<u8>>,
    ends: bool,
    failing: Vec<u64>,
}

/// Adds the numbers between commas; whether they are numbers.
fn read_calls(failing: &mut Vec<u64>, text: &str) -> Result<bool, AllocError> {
    for call in text.split(',') {
        match number(u64::MAX, call.as_bytes()) {
            Some(call) => failing.push(call)?,
            None => return Ok(false),
        }
    }
    Ok(true)
}

/// Reads a word of a line `link`; whether it is one.
fn read_word(lines: &mut LinkLines, word: &str) -> Result<bool, AllocError> {
    match word.strip_prefix("fails=") {
        Some(calls) => read_calls(&mut lines.failing, calls),
        None => {
            lines.ends = true;
            Ok(word == "ends")
        }
    }
}

/// Reads the words of a line `link`.
fn read_link(lines: &mut LinkLines, words: &str) -> Result<(), CaseError> {
    for word in words.split_whitespace() {
        if !read_word(lines, word)? {
            return Err(CaseError::Malformed);
        }
    }
    Ok(())
}

/// Reads a line behind the first one.
fn read_line(alloc: Global, lines: &mut LinkLines, line: &str) -> Result<(), CaseError> {
    if let Some(bytes) = line.strip_prefix("hears ") {
        let piece = read_bytes(alloc, bytes)?;
        return match lines.pieces.push_back(piece) {
            Ok(()) => Ok(()),
            Err(_) => Err(CaseError::Memory(AllocError)),
        };
    }
    match line.strip_prefix("link ") {
        Some(words) => read_link(lines, words),
        None => Err(CaseError::Malformed),
    }
}

/// The link that these lines say.
fn link_of(alloc: Global, text: &str) -> Result<LaterPipe, CaseError> {
    let mut lines = LinkLines {
        pieces: VecDeque::new(alloc),
        ends: false,
        failing: Vec::new(alloc),
    };
    for line in text.lines() {
        read_line(alloc, &mut lines, line)?;
    }
    let LinkLines {
        pieces,
        ends,
        failing,
    } = lines;
    Ok(LaterPipe::new(alloc, pieces, ends, failing))
}

/// The lines of a run that ended so.
fn text_of(
    alloc: Global,
    ending: Ending,
    written: &[u8],
    output: &[u8],
) -> Result<Vec<u8>, CaseError> {
    let ending = format!(in alloc; "{ending}\n")?;
    let digits = hex::encode(alloc, output)?;
    let mut out = Vec::new(alloc);
    out.extend_from_slice(ending.as_bytes())?;
    out.extend_from_slice(written)?;
    out.extend_from_slice(b"wrote ")?;
    out.extend_from_slice(digits.as_bytes())?;
    Ok(out)
}

/// What a listener comes to.
fn served<R: Wait + AllocGlobal>(rt: &R, link: LaterPipe) -> Result<Vec<u8>, CaseError> {
    let Ok(mut end) = End::listener(rt.alloc(), link) else {
        return Err(CaseError::Memory(AllocError));
    };
    let mut sink = MemorySink::new(rt.alloc(), &[])?;
    let ending = serve_on(rt, &mut end, &mut sink);
    text_of(rt.alloc(), ending, sink.written(), end.link_ref().output())
}

/// What a client comes to that sends so many messages.
fn connected<R: Wait + AllocGlobal>(
    rt: &R,
    link: LaterPipe,
    count: u32,
) -> Result<Vec<u8>, CaseError> {
    let Ok(mut end) = End::client(rt.alloc(), link) else {
        return Err(CaseError::Memory(AllocError));
    };
    let ending = connect_on(rt, &mut end, count);
    text_of(rt.alloc(), ending, b"", end.link_ref().output())
}

/// What a case comes to.
pub fn outcome<R: Wait + AllocGlobal>(rt: &R, lines: &str) -> Result<Vec<u8>, CaseError> {
    let Some((first, rest)) = lines.split_once('\n') else {
        return Err(CaseError::Malformed);
    };
    let link = link_of(rt.alloc(), rest)?;
    if first == "listen" {
        return served(rt, link);
    }
    let Some(count) = first.strip_prefix("connect ") else {
        return Err(CaseError::Malformed);
    };
    match number(MOST, count.as_bytes()) {
        Some(count) => connected(rt, link, count.min(MOST) as u32),
        None => Err(CaseError::Malformed),
    }
}
