//! The line of a listener.
ghost use Rattle.std.specs.Prelude.{◌≡◌, ◌≤◌, IfOk};
ghost use Rattle.amqp_wire.specs.Link.{Rose};
ghost use Rattle.list_laws.specs.Told.{Gains};
ghost use Rattle.amqp_streams.specs.Streams.{WritesFront};
ghost use Rattle.amqp_served.specs.Count.{count_text, IsWritten};

use crate::ending::Ending;
use amqp_streams::outside::{WriteError, write_all};
use amqp_wire::source::Sink;
use std::alloc::{AllocError, Global};

/// The line `messages N`; the one error is want of memory.
pub fn count_line(alloc: Global, count: u64) -> Result<Vec<u8>, AllocError>
    ensures { IfOk result (λ t. t.items ≡ count_text count) }
{
    let mut out = Vec::new(alloc);
    let digits = format!(in alloc; "{count}")?;
    out.extend_from_slice(b"messages ")?;
    out.extend_from_slice(digits.as_bytes())?;
    out.push(b'\n')?;
    Ok(out)
}

/// Writes a text; how a run ends that has come so far.
pub fn write_text<K: Sink>(sink: &mut K, text: &[u8]) -> Ending
    ensures done { result ≡ Ending.Done → Gains (K.written sink.old) (K.written sink.new) text.now }
    ensures ends { IsWritten result }
    ensures front { WritesFront text.now (K.written sink.old) (K.written sink.new) }
    ensures write_fault { result ≡ Ending.WriteFault → Rose (K.faults sink.old) (K.faults sink.new) }
    ensures later { K.faults sink.old ≤ K.faults sink.new }
{
    match write_all(sink, text) {
        Ok(()) => Ending::Done,
        Err(WriteError::Failed) => Ending::WriteFault,
        Err(WriteError::Memory) => Ending::Memory,
    }
}
