//! Two links over one socket of the loopback.
use crate::{LinkFault, SocketLink, SocketListener, WaitLink};
use amqp_wire::link::{Link, LinkRead, LinkWrite};
use std::net::{Ipv4Addr, SocketAddr, SocketAddrV4};
use std::test::Fail;
use std::time::Duration;

/// Reads once there is something to read, as a caller that waits does.
fn read_after_wait(link: &mut SocketLink, buf: &mut [u8]) -> LinkRead {
    for _ in 0..100 {
        let answer = link.read(buf);
        if answer != LinkRead::Empty || !link.wait() {
            return answer;
        }
    }
    LinkRead::Empty
}

#[test]
fn bytes_and_the_end_pass(rt: HostRuntime) -> Result<(), Fail> {
    let Ok(mut listener) = SocketListener::bind(&rt, 0) else {
        panic!(rt; "no port");
    };
    let address = SocketAddr::V4(SocketAddrV4::new(Ipv4Addr::LOCALHOST, listener.port()));
    let mut near = SocketLink::connect(&rt, address, Some(Duration::from_secs(20)))?;
    let Ok(mut far) = listener.accept(&rt) else {
        panic!(rt; "no connection");
    };
    let mut buf = [0u8; 8];
    assert_eq!(rt; far.read(&mut buf), LinkRead::Empty);
    assert_eq!(rt; near.write(b"abc"), LinkWrite::Took(3));
    assert_eq!(rt; read_after_wait(&mut far, &mut buf), LinkRead::Bytes(3));
    assert_eq!(rt; buf[..3].iter().copied().eq(*b"abc"), true);
    assert_eq!(rt; far.reads(), 1);
    assert_eq!(rt; far.fault(), None);
    drop(near);
    assert_eq!(rt; read_after_wait(&mut far, &mut buf), LinkRead::End);
    assert_eq!(rt; far.fault(), Some(LinkFault::Reading));
    Ok(())
}
