//! What comes of hexadecimal.
use amqp_decoder::ending::Ending;
use amqp_decoder::run::run_decode;
use amqp_wire::memory::{MemorySink, MemorySource};
use std::alloc::{AllocError, Global};

/// The lines that are written, and the line of the status where it is not `Done`.
pub fn outcome(alloc: Global, given: &str) -> Result<String, AllocError> {
    let mut source = MemorySource::new(alloc, given.as_bytes(), &[])?;
    let mut sink = MemorySink::new(alloc, &[])?;
    let ending = run_decode(alloc, &mut source, &mut sink);
    let lines = match str::from_utf8(sink.written()) {
        Ok(lines) => lines,
        Err(_) => "no text\n",
    };
    match ending {
        Ending::Done => String::from_str(alloc, lines),
        _ => format!(in alloc; "{lines}{ending}"),
    }
}
