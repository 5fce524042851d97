//! What comes of a case.
//!
//! The first line may be `link`, with `ends` where the link's input ends behind what came, and `fails=N,N` for the calls of
//! the link, counted from 0, that fail. The lines of the end follow, and what comes is the text of their trace
//! (`amqp_script::text`).
use crate::end::End;
use crate::error::CaseError;
use crate::gate::{client_gate, server_gate};
use crate::line::{Line, read_line};
use amqp_peer::Peer;
use amqp_script::script::number::number;
use amqp_script::text;
use amqp_text::Text;
use amqp_wire::faulty_pipe::FaultyPipe;
use amqp_words::{AcceptSasl, Call, Entry, EntryList, Trace};
use sasl_gate::SaslProfile;
use std::alloc::{AllocError, Global};
use std::mem;

/// What the cases of a file drive.
#[derive(Clone, Copy, Debug, PartialEq, Eq)]
pub enum Kind {
    /// Ends of connections.
    Peers,
    /// Gates.
    Gates,
}

/// The numbers of calls between commas; none where one is no number.
fn read_calls(alloc: Global, text: &str) -> Result<Option<Vec<u64>>, AllocError> {
    let mut calls = Vec::new(alloc);
    for call in text.split(',') {
        match number(u64::MAX, call.as_bytes()) {
            Some(call) => calls.push(call)?,
            None => return Ok(None),
        }
    }
    Ok(Some(calls))
}

/// The link that the words of a line say.
fn read_link(alloc: Global, words: &str) -> Result<FaultyPipe, CaseError> {
    let mut ends = false;
    let mut failing = Vec::new(alloc);
    for word in words.split_whitespace() {
        match word.strip_prefix("fails=") {
            Some(calls) => match read_calls(alloc, calls)? {
                Some(calls) => failing = calls,
                None => return Err(CaseError::Malformed),
            },
            None => ends = word == "ends",
        }
    }
    let link = FaultyPipe::new(alloc, &[], ends, failing.as_slice())?;
    Ok(link)
}

/// What one line comes to.
fn turn<E: End>(
    alloc: Global,
    end: &mut E,
    name: u64,
    text: &str,
    from: usize,
) -> Result<Entry, CaseError> {
    let line = read_line(alloc, text)?;
    end.hear(line.heard.as_slice())?;
    let replies = end.act(alloc, name, line.at, line.call)?;
    match end.written(alloc, from) {
        Ok(wrote) => Ok(Entry { replies, wrote }),
        Err(error) => {
            mem::forget(replies);
            Err(CaseError::Memory(error))
        }
    }
}

/// Adds what each line comes to.
fn turns<E: End>(
    alloc: Global,
    end: &mut E,
    lines: &str,
    entries: &mut EntryList,
) -> Result<(), CaseError> {
    let mut from = 0usize;
    for line in lines.lines() {
        let name = entries.len() as u64;
        let entry = turn(alloc, end, name, line, from)?;
        from = from.saturating_add(entry.wrote.len());
        entries.push(entry)?;
    }
    Ok(())
}

/// What an end comes to, which is kept until the program is over.
fn outcome_of<E: End>(alloc: Global, mut end: E, lines: &str) -> Result<Vec<u8>, CaseError> {
    let mut trace = Trace {
        entries: EntryList::new(alloc),
    };
    let done = turns(alloc, &mut end, lines, &mut trace.entries);
    mem::forget(end);
    let written = text(alloc, &trace);
    mem::forget(trace);
    done?;
    let written = written?;
    Ok(written)
}

/// What an end of a connection comes to.
fn peer_outcome(alloc: Global, link: FaultyPipe, lines: &str) -> Result<Vec<u8>, CaseError> {
    let made = if lines.starts_with('c') {
        Peer::client(alloc, link)
    } else {
        Peer::listener(alloc, link)
    };
    match made {
        Ok(peer) => outcome_of(alloc, peer, lines),
        Err((error, _)) => Err(CaseError::Memory(error)),
    }
}

/// The call of the first line.
fn first_call(alloc: Global, lines: &str) -> Result<Call, CaseError> {
    let Some(first) = lines.lines().next() else {
        return Err(CaseError::Malformed);
    };
    let Line { call, .. } = read_line(alloc, first)?;
    match call {
        Some(call) => Ok(call),
        None => Err(CaseError::Malformed),
    }
}

/// What the gate of a client comes to.
fn client_outcome(
    alloc: Global,
    link: FaultyPipe,
    profile: SaslProfile,
    hostname: Option<Text>,
    lines: &str,
) -> Result<Vec<u8>, CaseError> {
    let gate = client_gate(alloc, link, profile, hostname)?;
    outcome_of(alloc, gate, lines)
}

/// What the gate of a listener comes to.
fn listener_outcome(
    alloc: Global,
    link: FaultyPipe,
    sasl: AcceptSasl,
    lines: &str,
) -> Result<Vec<u8>, CaseError> {
    let gate = server_gate(alloc, link, sasl)?;
    outcome_of(alloc, gate, lines)
}

/// What a gate comes to, which the first line's call asks for.
fn gate_outcome(alloc: Global, link: FaultyPipe, lines: &str) -> Result<Vec<u8>, CaseError> {
    match first_call(alloc, lines)? {
        Call::Open {
            sasl_hostname,
            sasl,
            ..
        } => match sasl {
            Some(profile) => client_outcome(alloc, link, profile, sasl_hostname, lines),
            None => Err(CaseError::Malformed),
        },
        Call::Accept { sasl, .. } => match sasl {
            Some(sasl) => listener_outcome(alloc, link, sasl, lines),
            None => Err(CaseError::Malformed),
        },
        Call::Close { .. } => Err(CaseError::Malformed),
    }
}

/// What a case comes to.
pub fn outcome(alloc: Global, kind: Kind, given: &str) -> Result<Vec<u8>, CaseError> {
    let (words, lines) = match given.strip_prefix("link ") {
        Some(rest) => rest.split_once('\n').unwrap_or((rest, "")),
        None => ("", given),
    };
    let link = read_link(alloc, words)?;
    match kind {
        Kind::Peers => peer_outcome(alloc, link, lines),
        Kind::Gates => gate_outcome(alloc, link, lines),
    }
}
