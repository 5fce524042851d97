//! The sessions that an engine takes in and hands out, which no script reaches.
use amqp_engine::{
    AllocSessionError, Connection, ConnectionEngine, EndKind, EngineStep, Error, ListenerConnection,
};
use amqp_performatives::open::Open;
use amqp_text::Text;
use amqp_transport::{AmqpFrames, Transport};
use amqp_wire::pipe::Pipe;
use std::alloc::{AllocError, Global};
use std::mem;
use std::test::Fail;

/// An Open of container a with max-frame-size 1000, channel-max 1 and idle-time-out 10.
const OPEN_WITH_LIMITS: &[u8] =
    b"\x00\x00\x00\x1c\x02\x00\x00\x00\x00\x53\x10\xc0\x0f\x05\xa1\x01\x61\x40\x70\x00\x00\x03\xe8\x60\x00\x01\x52\x0a";

/// A Begin that answers none, on channel 1.
const BEGIN: &[u8] =
    b"\x00\x00\x00\x14\x02\x00\x00\x01\x00\x53\x11\xc0\x07\x04\x40\x43\x52\x05\x52\x05";

/// An End, on channel 1.
const END: &[u8] = b"\x00\x00\x00\x0c\x02\x00\x00\x01\x00\x53\x17\x45";

fn local_open(alloc: Global) -> Result<Open, AllocError> {
    Ok(Open {
        container_id: Text::from_str(alloc, "a")?,
        hostname: None,
        max_frame_size: u32::MAX,
        channel_max: u16::MAX,
        idle_time_out: None,
        outgoing_locales: None,
        incoming_locales: None,
        offered_capabilities: None,
        desired_capabilities: None,
        properties: None,
    })
}

fn open_engine(alloc: Global, end: EndKind) -> Option<ConnectionEngine<Pipe>> {
    let transport: Transport<Pipe, AmqpFrames> = Transport::bind(
        alloc,
        Pipe::new(alloc),
        512,
        None,
        0,
    );
    match ConnectionEngine::open(alloc, transport, end) {
        Ok(engine) => Some(engine),
        Err(refused) => {
            mem::forget(refused);
            None
        }
    }
}

fn client(alloc: Global) -> Option<ConnectionEngine<Pipe>> {
    match local_open(alloc) {
        Ok(open) => open_engine(alloc, EndKind::Client(Connection::new(open))),
        Err(_) => None,
    }
}

fn listener(alloc: Global) -> Option<ConnectionEngine<Pipe>> {
    match local_open(alloc) {
        Ok(open) => open_engine(alloc, EndKind::Listener(ListenerConnection::new(open))),
        Err(_) => None,
    }
}

// What a step does, or that a frame came on a channel that names no session.
fn step(engine: &mut ConnectionEngine<Pipe>, at: u64) -> Result<EngineStep, bool> {
    match engine.step(at) {
        Ok(step) => Ok(step),
        Err(error) => {
            let is_not_found = matches!(&error, Error::NotFound);
            mem::forget(error);
            Err(is_not_found)
        }
    }
}

// Whether a step after these bytes works on, and the next one finds nothing to do.
fn takes(engine: &mut ConnectionEngine<Pipe>, bytes: &[u8]) -> bool {
    engine.link().give(bytes).is_ok()
        && step(engine, 4) == Ok(EngineStep::Worked)
        && step(engine, 4) == Ok(EngineStep::Pending)
}

// Whether the Opens are exchanged; the empty frame that is due goes out in a step of its own.
fn opens(engine: &mut ConnectionEngine<Pipe>) -> bool {
    step(engine, 0) == Ok(EngineStep::Pending)
        && engine.link().give(OPEN_WITH_LIMITS).is_ok()
        && step(engine, 3) == Ok(EngineStep::Worked)
        && step(engine, 3) == Ok(EngineStep::Worked)
        && step(engine, 3) == Ok(EngineStep::Pending)
        && engine.max_frame_size() == 1000
}

// The channel of the session that a peer asks for.
fn asked_channel(engine: &mut ConnectionEngine<Pipe>) -> Option<u16> {
    let asked = engine.next_incoming_session()?;
    let channel = asked.channel;
    mem::forget(asked);
    Some(channel)
}

#[test]
fn sessions_of_the_peer(rt: HostRuntime) -> Result<(), Fail> {
    let mut engine = listener(rt.alloc()).ok_or("no engine")?;
    assert!(rt; opens(&mut engine) && takes(&mut engine, BEGIN));
    assert_eq!(rt; asked_channel(&mut engine), Some(1));
    assert!(rt; takes(&mut engine, END));
    let frame = engine.take_incoming();
    assert!(rt; frame.is_some());
    mem::forget(frame);
    // The session is over, and its channel names none.
    engine.link().give(END)?;
    assert_eq!(rt; step(&mut engine, 4), Err(true));
    mem::forget(engine);
    Ok(())
}

#[test]
fn channels_of_sessions(rt: HostRuntime) -> Result<(), Fail> {
    let mut engine = client(rt.alloc()).ok_or("no engine")?;
    assert!(rt; opens(&mut engine));
    assert!(rt; engine.allocate_session() == Ok(0));
    assert!(rt; engine.allocate_session() == Ok(1));
    assert!(rt; engine.allocate_session() == Err(AllocSessionError::ChannelMaxReached));
    engine.deallocate_session(0);
    assert!(rt; engine.allocate_session() == Ok(0));
    mem::forget(engine);
    Ok(())
}
