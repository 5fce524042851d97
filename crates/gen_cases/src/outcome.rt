//! What words come to.
ghost use Rattle.std.specs.Prelude.{◌≤◌};

use amqp_gen::{asked, run_command};
use amqp_text::Text;
use amqp_wire::memory::MemorySink;
use amqp_wire::status::Status;
use std::alloc::{AllocError, Global};
use std::str;

fn words_of(alloc: Global, line: &str) -> Result<Vec<Text>, AllocError> {
    let mut words = Vec::new(alloc);
    for word in line.split(' ') {
        words.push(Text::from_str(alloc, word)?)?;
    }
    Ok(words)
}

/// What a run writes, and how it ends where it is not done.
fn written(alloc: Global, start: u64, count: u32) -> Result<String, AllocError>
    requires { count ≤ 10000 }
{
    let mut sink = MemorySink::new(alloc, &[])?;
    match run_command(alloc, start, count, &mut sink) {
        Status::Done => match str::from_utf8(sink.written()) {
            Ok(text) => String::from_str(alloc, text),
            Err(_) => String::from_str(alloc, "no text"),
        },
        status => format!(in alloc; "{status}\n"),
    }
}

/// What the words of a line come to.
pub fn outcome(alloc: Global, given: &str) -> Result<String, AllocError> {
    let words = words_of(alloc, given.trim())?;
    match asked(words.as_slice()) {
        Some((start, count)) => written(alloc, start, count),
        None => String::from_str(alloc, "none"),
    }
}
