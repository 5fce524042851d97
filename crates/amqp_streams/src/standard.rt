//! Standard input and standard output as a source and a sink.
//!
//! They tell nothing of the bytes that pass, and count their failures.
ghost use Rattle.std.specs.Prelude.{◌≡◌, None};

use amqp_wire::source::{Sink, SinkWrite, Source, SourceRead};
use std::io::{Read, Write};

/// A source over a reader.
#[derive(Drop)]
pub struct StandardInput<R: Read + Drop> {
    reader: R,
    faults: u64,
}

impl<R: Read + Drop> StandardInput<R> {
    /// A source that has not failed yet.
    pub fn new(reader: R) -> Self
        ensures { result ≡ record { reader = reader; faults = 0 } }
    {
        StandardInput { reader, faults: 0 }
    }
}

impl<R: Read + Drop> Source for StandardInput<R> {
    ghost left = { λ _. None };

    ghost faults = { λ s. s.faults };

    fn read(&mut self, buf: &mut [u8]) -> SourceRead {
        match self.reader.read(buf) {
            Ok(0) => SourceRead::End,
            Ok(count) => SourceRead::Bytes(count),
            Err(_) => {
                self.faults = self.faults.saturating_add(1);
                SourceRead::Failed
            }
        }
    }
}

/// A sink over a writer. A write that took nothing counts as failed.
#[derive(Drop)]
pub struct StandardOutput<W: Write + Drop> {
    writer: W,
    faults: u64,
}

impl<W: Write + Drop> StandardOutput<W> {
    /// A sink that has not failed yet.
    pub fn new(writer: W) -> Self
        ensures { result ≡ record { writer = writer; faults = 0 } }
    {
        StandardOutput { writer, faults: 0 }
    }
}

impl<W: Write + Drop> Sink for StandardOutput<W> {
    ghost written = { λ _. None };

    ghost faults = { λ s. s.faults };

    fn write(&mut self, piece: &[u8]) -> SinkWrite {
        match self.writer.write(piece) {
            Ok(count) if count > 0 || piece.is_empty() => SinkWrite::Took(count),
            _ => {
                self.faults = self.faults.saturating_add(1);
                SinkWrite::Failed
            }
        }
    }
}
