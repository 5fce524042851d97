//! What comes of a case: the text of the trace of its lines (`amqp_session_script::trace_text`).
use crate::error::CaseError;
use crate::line::{Line, read_line};
use amqp_calls::{Entry, Trace};
use amqp_end::End;
use amqp_session_script::trace_text::text;
use amqp_wire::pipe::Pipe;
use std::alloc::{AllocError, Global};
use std::mem;

/// Makes the call of a line, or goes on.
fn act(end: &mut End<Pipe>, name: u64, line: Line) -> Result<(), CaseError> {
    let Line { at, heard, call } = line;
    end.link().give(heard.as_slice())?;
    match call {
        Some(call) => {
            if !end.may_call(name, &call) {
                return Err(CaseError::Malformed);
            }
            end.call(at, name, call)?;
        }
        None => end.poll(at)?,
    }
    Ok(())
}

/// What one line comes to.
fn turn(alloc: Global, end: &mut End<Pipe>, name: u64, text: &str) -> Result<Entry, CaseError> {
    let line = read_line(alloc, text)?;
    let before = end.link_ref().output().len();
    act(end, name, line)?;
    let mut wrote = Vec::new(alloc);
    let output = end.link_ref().output();
    wrote.extend_from_slice(output.get(before..).unwrap_or(&[]))?;
    let replies = end.replies();
    Ok(Entry { replies, wrote })
}

/// Adds what each line comes to.
fn turns(
    alloc: Global,
    end: &mut End<Pipe>,
    lines: &str,
    entries: &mut Vec<Entry>,
) -> Result<(), CaseError> {
    for line in lines.lines() {
        let name = entries.len() as u64;
        let entry = turn(alloc, end, name, line)?;
        match entries.push(entry) {
            Ok(()) => {}
            Err(_) => return Err(CaseError::Memory(AllocError)),
        }
    }
    Ok(())
}

/// The end whose lines these are.
fn made_end(alloc: Global, lines: &str) -> Result<End<Pipe>, CaseError> {
    let link = Pipe::new(alloc);
    let made = if lines.starts_with('c') {
        End::client(alloc, link)
    } else {
        End::listener(alloc, link)
    };
    match made {
        Ok(end) => Ok(end),
        Err((error, _)) => Err(CaseError::Memory(error)),
    }
}

/// What a case comes to. The end is kept until the program is over.
pub fn outcome(alloc: Global, lines: &str) -> Result<Vec<u8>, CaseError> {
    let mut end = made_end(alloc, lines)?;
    let mut trace = Trace {
        entries: Vec::new(alloc),
    };
    let done = turns(alloc, &mut end, lines, &mut trace.entries);
    mem::forget(end);
    let written = text(alloc, &trace);
    mem::forget(trace);
    done?;
    let written = written?;
    Ok(written)
}
