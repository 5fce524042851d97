//! Frames over links in memory, and links that fail.
use amqp_wire::codec::{Filled, FramedCodec};
use amqp_wire::faulty_pipe::FaultyPipe;
use amqp_wire::link::{Held, Link, LinkRead, LinkWrite, Stop};
use amqp_wire::memory::{MemorySink, MemorySource};
use amqp_wire::source::{Sink, SinkWrite, Source, SourceRead};
use std::test::Fail;

/// A read through the trait, as generic callers make it.
fn read_some<S: Source>(source: &mut S, buf: &mut [u8]) -> SourceRead {
    source.read(buf)
}

/// A write through the trait, as generic callers make it.
fn write_some<K: Sink>(sink: &mut K, piece: &[u8]) -> SinkWrite {
    sink.write(piece)
}

#[test]
fn source_fails_at_its_second_read(rt: HostRuntime) -> Result<(), Fail> {
    let mut source = MemorySource::new(rt.alloc(), b"abc", &[1])?;
    let mut buf = [0u8; 2];
    let answers = [
        SourceRead::Bytes(2),
        SourceRead::Failed,
        SourceRead::Bytes(1),
        SourceRead::End,
    ];
    for want in answers {
        assert_eq!(rt; read_some(&mut source, &mut buf), want);
    }
    assert_eq!(rt; buf.as_slice(), b"cb".as_slice());
    Ok(())
}

#[test]
fn sink_fails_at_its_first_write(rt: HostRuntime) -> Result<(), Fail> {
    let mut sink = MemorySink::new(rt.alloc(), &[0])?;
    assert_eq!(rt; write_some(&mut sink, b"ab"), SinkWrite::Failed);
    assert_eq!(rt; write_some(&mut sink, b"cd"), SinkWrite::Took(2));
    assert_eq!(rt; sink.written(), b"cd".as_slice());
    Ok(())
}

#[test]
fn faulty_pipe_counts_both_calls(rt: HostRuntime) -> Result<(), Fail> {
    let mut pipe = FaultyPipe::new(rt.alloc(), b"ab", true, &[1, 2])?;
    let mut buf = [0u8; 8];
    assert_eq!(rt; pipe.read(&mut buf), LinkRead::Bytes(2));
    assert_eq!(rt; pipe.write(b"x"), LinkWrite::Failed);
    assert_eq!(rt; pipe.read(&mut buf), LinkRead::Failed);
    assert_eq!(rt; pipe.write(b"y"), LinkWrite::Took(1));
    assert_eq!(rt; pipe.read(&mut buf), LinkRead::End);
    pipe.give(b"c")?;
    assert_eq!(rt; pipe.read(&mut buf), LinkRead::Bytes(1));
    assert_eq!(rt; pipe.untaken(), b"y".as_slice());
    pipe.taken(1);
    assert_eq!(rt; pipe.untaken(), b"".as_slice());
    assert_eq!(rt; pipe.output(), b"y".as_slice());
    Ok(())
}

#[test]
fn codec_over_a_faulty_pipe(rt: HostRuntime) -> Result<(), Fail> {
    let pipe = FaultyPipe::new(rt.alloc(), b"", true, &[0, 2])?;
    let mut codec = FramedCodec::new(rt.alloc(), pipe, 512, 512);
    codec.queue(b"ab")?;
    assert_eq!(rt; codec.fill()?, Filled::Stopped(Stop::Failed));
    assert_eq!(rt; codec.fill()?, Filled::Stopped(Stop::End));
    assert_eq!(rt; codec.flush(), Some(Held::Failed));
    assert_eq!(rt; codec.flush(), None);
    assert_eq!(rt; codec.link().output(), b"ab".as_slice());
    Ok(())
}
