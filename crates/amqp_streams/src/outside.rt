//! All that a source gives, and a whole text into a sink.
ghost use Rattle.std.specs.Prelude.{◌≡◌, ◌≤◌, ◌<◌, length, IfOk, OnOk, IsErrOf};
ghost use Rattle.list_laws.specs.Told.{Gains};
ghost use Rattle.amqp_wire.specs.Link.{Rose};
ghost use Rattle.amqp_streams.specs.Streams.{ReadsScript, ReadsUpTo, WritesFront};
ghost use Rattle.amqp_streams.specs.declared.outside.ReadError.TheVariants.{Memory};

use amqp_wire::source::{Sink, SinkWrite, Source, SourceRead};
use bytes::BytesMut;
use std::alloc::{AllocError, Global};

/// The most bytes that one read takes.
const PIECE: usize = 4096;

/// Why a source did not give all.
#[derive(Clone, Copy, Debug, PartialEq, Eq)]
pub enum ReadError {
    /// There was not enough memory.
    Memory,
    /// The source failed.
    Failed,
    /// There was more than the limit.
    TooLong,
}

impl From<AllocError> for ReadError {
    ghost from_gives = { λ _ e. e ≡ Memory };

    fn from(_: AllocError) -> Self {
        ReadError::Memory
    }
}

/// Why a sink did not take all.
#[derive(Clone, Copy, Debug, PartialEq, Eq)]
pub enum WriteError {
    /// There was not enough memory.
    Memory,
    /// The sink failed.
    Failed,
}

/// Reads a source to its end, at most `limit` bytes. Room is made before a read, so that no
/// byte that moved is lost.
pub fn read_all<S: Source>(
    alloc: Global,
    source: &mut S,
    limit: usize,
) -> Result<BytesMut, ReadError>
    ensures all { IfOk result (λ text. ReadsScript (S.left source.old) (S.left source.new) text.items) }
    ensures exact { ReadsUpTo limit (S.left source.old) (S.left source.new) (IsErrOf result ReadError.TooLong) }
    ensures failed { IsErrOf result ReadError.Failed → Rose (S.faults source.old) (S.faults source.new) }
    ensures later { S.faults source.old ≤ S.faults source.new }
{
    let mut text = BytesMut::new(alloc);
    let mut piece = [0u8; PIECE];
    'reads: while text.len() <= limit {
        text.reserve(PIECE)?;
        match source.read(&mut piece) {
            SourceRead::Bytes(0) => return Ok(text),
            SourceRead::Bytes(count) => text.extend_reserved(&piece[..count]),
            SourceRead::End => return Ok(text),
            SourceRead::Failed => return Err(ReadError::Failed),
        }
    }
    Err(ReadError::TooLong)
}

/// Writes a text whole.
pub fn write_all<K: Sink>(sink: &mut K, text: &[u8]) -> Result<(), WriteError>
    ensures all { OnOk result (Gains (K.written sink.old) (K.written sink.new) text.now) }
    ensures front { WritesFront text.now (K.written sink.old) (K.written sink.new) }
    ensures failed { IsErrOf result WriteError.Failed → Rose (K.faults sink.old) (K.faults sink.new) }
    ensures later { K.faults sink.old ≤ K.faults sink.new }
{
    let mut at = 0;
    'writes: while at < text.len() {
        match sink.write(&text[at..]) {
            SinkWrite::Took(count) => at += count,
            SinkWrite::Failed => return Err(WriteError::Failed),
            SinkWrite::Memory => return Err(WriteError::Memory),
        }
    }
    Ok(())
}
