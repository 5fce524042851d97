//! What a case comes to.
ghost use Rattle.std.specs.Prelude.{◌<◌, ◌≤◌, IfSome};

use crate::turns::InTurns;
use amqp_disposers::{Ending, Gate, OpenGate, run_disposers};
use amqp_wire::memory::MemorySink;
use std::alloc::{AllocError, Global};
use std::str;
use std::sync::Wait;
use std::thread::Threads;

fn number(word: &str) -> Option<u32> {
    word.parse::<u32>().ok()
}

/// What a line asks for.
#[derive(Clone, Copy)]
struct Asked {
    deliveries: u32,
    workers: u32,
    /// Whether the workers take their turns by tickets.
    ticket: bool,
    /// Whether two of them are held until a call of the other was answered.
    in_turns: bool,
}

/// The deliveries and the workers of a line, and how the workers share the book.
fn case_of(line: &str) -> Option<Asked>
    ensures most { IfSome result (λ n. n.deliveries ≤ 10000) }
    ensures some { IfSome result (λ n. 0 < n.workers) }
    ensures few { IfSome result (λ n. n.workers ≤ 64) }
{
    let (deliveries, rest) = line.split_once(' ')?;
    let deliveries = number(deliveries)?;
    let (rest, in_turns) = match rest.strip_suffix(" in turns") {
        Some(rest) => (rest, true),
        None => (rest, false),
    };
    let (rest, ticket) = match rest.strip_suffix(" ticket") {
        Some(rest) => (rest, true),
        None => (rest, false),
    };
    let workers = number(rest)?;
    if deliveries <= 10_000 && 1 <= workers && workers <= 64 {
        Some(Asked {
            deliveries,
            workers,
            ticket,
            in_turns,
        })
    } else {
        None
    }
}

/// What a run writes, and how it ends where it is not done.
fn written<R: Threads + Wait + Sync, G: Gate + Sync>(
    rt: &R,
    gate: &G,
    alloc: Global,
    asked: Asked,
) -> Result<String, AllocError>
    requires most { asked.deliveries ≤ 10000 }
    requires some { 0 < asked.workers }
    requires few { asked.workers ≤ 64 }
{
    let mut sink = MemorySink::new(alloc, &[])?;
    match run_disposers(
        rt,
        gate,
        alloc,
        asked.deliveries,
        asked.workers,
        &mut sink,
        asked.ticket,
    ) {
        Ending::Done => match str::from_utf8(sink.written()) {
            Ok(text) => String::from_str(alloc, text),
            Err(_) => String::from_str(alloc, "no text"),
        },
        ending => format!(in alloc; "{ending}\n"),
    }
}

/// What the lines of a case come to.
pub fn answers<R: Threads + Wait + Sync>(
    rt: &R,
    alloc: Global,
    given: &str,
) -> Result<String, AllocError> {
    let Some(asked) = case_of(given.trim()) else {
        return String::from_str(alloc, "malformed");
    };
    if !asked.in_turns {
        return written(rt, &OpenGate, alloc, asked);
    }
    let gate = InTurns::new();
    let mut text = written(rt, &gate, alloc, asked)?;
    text.push_str(if gate.is_passed() {
        "in turns"
    } else {
        "alone"
    })?;
    Ok(text)
}
