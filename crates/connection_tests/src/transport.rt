//! Headers, clocks, and frames at the limit of a transport.
use amqp_frames::ConnectionState;
use amqp_sasl_bodies::sasl::SaslResponse;
use amqp_sasl_bodies::sasl_body::SaslBody;
use amqp_text::Binary;
use amqp_transport::{
    HeartBeat, IdleClock, Negotiated, Negotiating, ProtocolHeader, ProtocolId, SaslFrames,
    Transport, negotiate_amqp_header, negotiate_sasl_header, transport,
};
use amqp_wire::codec::FramedCodec;
use amqp_wire::pipe::Pipe;
use std::alloc::{AllocError, Global};
use std::mem;
use std::test::Fail;

#[test]
fn headers_have_eight_bytes(rt: HostRuntime) -> Result<(), Fail> {
    assert_eq!(rt; ProtocolHeader::amqp().to_bytes(), *b"AMQP\x00\x01\x00\x00");
    assert_eq!(rt; ProtocolHeader::tls().to_bytes(), *b"AMQP\x02\x01\x00\x00");
    assert_eq!(rt; ProtocolHeader::sasl().to_bytes(), *b"AMQP\x03\x01\x00\x00");
    assert_eq!(rt;
        ProtocolHeader::from_bytes(*b"AMQP\x03\x01\x00\x00"),
        Some(ProtocolHeader::sasl())
    );
    assert_eq!(rt; ProtocolHeader::from_bytes(*b"AMQP\x01\x01\x00\x00"), None);
    assert_eq!(rt; ProtocolHeader::from_bytes(*b"HTTP\x00\x01\x00\x00"), None);
    assert!(rt; ProtocolHeader::sasl().is_sasl() && !ProtocolHeader::sasl().is_tls());
    assert!(rt; ProtocolHeader::tls().is_tls() && !ProtocolHeader::amqp().is_sasl());
    assert_eq!(rt; ProtocolId::Sasl.number(), 3);
    Ok(())
}

#[test]
fn idle_time_runs_out(rt: HostRuntime) -> Result<(), Fail> {
    let mut clock = IdleClock::new(5, 10);
    assert_eq!(rt; clock.idle(), 5);
    for (at, elapsed) in [(0, false), (14, false), (15, true), (u64::MAX, true)] {
        assert_eq!(rt; clock.has_elapsed(at), elapsed, "{at}");
    }
    clock.restart(13);
    assert!(rt; !clock.has_elapsed(17) && clock.has_elapsed(18));
    assert!(rt; !IdleClock::new(0, 0).has_elapsed(u64::MAX));
    Ok(())
}

#[test]
fn beats_that_are_missed_are_left_out(rt: HostRuntime) -> Result<(), Fail> {
    let mut beat = HeartBeat::new(10, 3);
    for (at, due) in [
        (2, false),
        (3, true),
        (3, false),
        (12, false),
        (13, true),
        (45, true),
        (52, false),
        (53, true),
    ] {
        assert_eq!(rt; beat.poll(at), due, "{at}");
    }
    let mut never = HeartBeat::never();
    assert!(rt; !never.poll(u64::MAX));
    Ok(())
}

fn begins_with(
    negotiating: Result<Negotiating<Pipe>, (AllocError, FramedCodec<Pipe>)>,
    header: [u8; 8],
) -> bool {
    match negotiating {
        Ok(mut negotiating) => {
            let polled = negotiating.poll();
            polled == Ok(Negotiated::Pending) && negotiating.link().output() == header.as_slice()
        }
        Err(_) => false,
    }
}

#[test]
fn headers_of_both_layers(rt: HostRuntime) -> Result<(), Fail> {
    let alloc = rt.alloc();
    let codec = FramedCodec::new(alloc, Pipe::new(alloc), 512, 512);
    assert!(rt; begins_with(negotiate_sasl_header(codec), *b"AMQP\x03\x01\x00\x00"));
    let codec = FramedCodec::new(alloc, Pipe::new(alloc), 512, 512);
    let negotiating = negotiate_amqp_header(codec, ConnectionState::Start, Some(5));
    assert!(rt; begins_with(negotiating, *b"AMQP\x00\x01\x00\x00"));
    Ok(())
}

/// Sends a SASL response of 256 bytes or more, whose frame has 25 bytes more.
fn sends_a_response(
    alloc: Global,
    text: &[u8],
) -> Result<Result<(), transport::Error>, AllocError> {
    let mut response = Binary::new(alloc);
    response.append(text)?;
    let body = SaslBody::Response(SaslResponse { response });
    let mut transport: Transport<Pipe, SaslFrames> = Transport::bind(
        alloc,
        Pipe::new(alloc),
        512,
        None,
        0,
    );
    let sent = transport.start_send(alloc, &body);
    mem::forget(body);
    Ok(sent)
}

#[test]
fn frames_at_the_limit_are_sent(rt: HostRuntime) -> Result<(), Fail> {
    assert_eq!(rt; sends_a_response(rt.alloc(), &[b'x'; 487])?, Ok(()));
    assert_eq!(rt;
        sends_a_response(rt.alloc(), &[b'x'; 488])?,
        Err(transport::Error::FramingError)
    );
    Ok(())
}
