//! The run over any source and sink.
ghost use Rattle.std.specs.Prelude.{◌≡◌, ◌≤◌, ◌⊎◌, Some, None, IfOk, IfErr, IsErrOf};
ghost use Rattle.amqp_wire.specs.Link.{Rose};
ghost use Rattle.list_laws.specs.Told.{Gains};
ghost use Rattle.amqp_streams.specs.Streams.{ReadsUpTo, WritesFront};
ghost use Rattle.amqp_conversation.specs.declared.decode.BadBytes.{BadBytes as Bad};
ghost use Rattle.amqp_decoder.specs.Decoder.{IsLines, WritesLines, WritesSomeLines, IsNoHexadecimal};
ghost use Rattle.amqp_decoder.specs.Ending.{IsEnd, IsEndUnwritten};

use crate::digits::digits_of;
use crate::ending::Ending;
use amqp_conversation::decode::{BadBytes, Decoded, decode};
use amqp_streams::outside::{ReadError, WriteError, read_all, write_all};
use amqp_wire::source::{Sink, Source};
use hex::FromHexError;
use std::alloc::Global;

/// The most bytes that are read.
pub const LONGEST_TEXT: usize = 16_777_216;

/// Reads hexadecimal with any white space to its end, and writes a line `OFFSET SIZE TEXT` for each protocol header and frame
/// that the bytes are, in order, up to the first byte that begins none.
pub fn run_decode<S: Source, K: Sink>(alloc: Global, source: &mut S, sink: &mut K) -> Ending
    ensures done { result ≡ Ending.Done →
        WritesLines (S.left source.old) (S.left source.new) None (K.written sink.old) (K.written sink.new) }
    ensures bad_bytes { (bad : Bad) → result ≡ Ending.BadBytes bad →
        WritesLines (S.left source.old) (S.left source.new) (Some bad) (K.written sink.old) (K.written sink.new) }
    ensures no_hexadecimal { result ≡ Ending.NoHexadecimal →
        IsNoHexadecimal (S.left source.old) (S.left source.new) × (K.written sink.new ≡ K.written sink.old) }
    ensures memory { result ≡ Ending.Memory → (K.written sink.new ≡ K.written sink.old) ⊎
        WritesSomeLines (S.left source.old) (S.left source.new) (K.written sink.old) (K.written sink.new) }
    ensures read_fault { result ≡ Ending.ReadFault →
        Rose (S.faults source.old) (S.faults source.new) × (K.written sink.new ≡ K.written sink.old) }
    ensures write_fault { result ≡ Ending.WriteFault → Rose (K.faults sink.old) (K.faults sink.new) }
    ensures write_front { result ≡ Ending.WriteFault →
        WritesSomeLines (S.left source.old) (S.left source.new) (K.written sink.old) (K.written sink.new) }
    ensures too_long { ReadsUpTo 16777216 (S.left source.old) (S.left source.new) (result ≡ Ending.TooLong) }
    ensures unwritten { result ≡ Ending.TooLong → K.written sink.new ≡ K.written sink.old }
    ensures source_later { S.faults source.old ≤ S.faults source.new }
    ensures sink_later { K.faults sink.old ≤ K.faults sink.new }
{
    match lines_of(alloc, source) {
        Ok(decoded) => write_lines(sink, decoded.text.as_slice(), decoded.bad),
        Err(ending) => ending,
    }
}

/// The lines of what a source gives, or how a run ends that has none.
fn lines_of<S: Source>(alloc: Global, source: &mut S) -> Result<Decoded, Ending>
    ensures lines { IfOk result (λ d. IsLines (S.left source.old) (S.left source.new) d.bad d.text.items) }
    ensures no_hexadecimal { IsErrOf result Ending.NoHexadecimal → IsNoHexadecimal (S.left source.old) (S.left source.new) }
    ensures read_fault { IsErrOf result Ending.ReadFault → Rose (S.faults source.old) (S.faults source.new) }
    ensures too_long { ReadsUpTo 16777216 (S.left source.old) (S.left source.new) (IsErrOf result Ending.TooLong) }
    ensures ends { IfErr result IsEndUnwritten }
    ensures later { S.faults source.old ≤ S.faults source.new }
{
    let given = match read_all(alloc, source, LONGEST_TEXT) {
        Ok(given) => given,
        Err(ReadError::Memory) => return Err(Ending::Memory),
        Err(ReadError::Failed) => return Err(Ending::ReadFault),
        Err(ReadError::TooLong) => return Err(Ending::TooLong),
    };
    let Ok(digits) = digits_of(alloc, given.as_slice()) else {
        return Err(Ending::Memory);
    };
    let bytes = match hex::decode(alloc, digits.as_slice()) {
        Ok(bytes) => bytes,
        Err(FromHexError::OutOfMemory) => return Err(Ending::Memory),
        Err(_) => return Err(Ending::NoHexadecimal),
    };
    decode(alloc, bytes.as_slice()).map_err(|_| Ending::Memory)
}

/// Writes the lines; how a run ends that has come so far.
fn write_lines<K: Sink>(sink: &mut K, text: &[u8], bad: Option<BadBytes>) -> Ending
    ensures done { result ≡ Ending.Done → (bad ≡ None) × Gains (K.written sink.old) (K.written sink.new) text.now }
    ensures bad_bytes { (b : Bad) → result ≡ Ending.BadBytes b → (bad ≡ Some b) × Gains (K.written sink.old) (K.written sink.new) text.now }
    ensures ends { IsEnd result }
    ensures front { WritesFront text.now (K.written sink.old) (K.written sink.new) }
    ensures write_fault { result ≡ Ending.WriteFault → Rose (K.faults sink.old) (K.faults sink.new) }
    ensures later { K.faults sink.old ≤ K.faults sink.new }
{
    match write_all(sink, text) {
        Ok(()) => match bad {
            Some(bad) => Ending::BadBytes(bad),
            None => Ending::Done,
        },
        Err(WriteError::Failed) => Ending::WriteFault,
        Err(WriteError::Memory) => Ending::Memory,
    }
}
