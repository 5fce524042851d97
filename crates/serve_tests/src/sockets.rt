//! A client and a listener over the loopback.
use amqp_end::End;
use amqp_net::{SocketLink, SocketListener};
use amqp_serve::{connect_on, serve_on};
use amqp_served::Ending;
use amqp_wire::memory::MemorySink;
use std::net::{Ipv4Addr, Net, SocketAddr, SocketAddrV4};
use std::sync::Wait;
use std::test::Fail;
use std::thread;

/// Serves one connection, and answers how that ended and whether it wrote that line.
fn serve_here<R: Net + AllocGlobal + Wait>(
    rt: &R,
    mut listener: SocketListener,
    line: &[u8],
) -> (Ending, bool) {
    let Ok(link) = listener.accept(rt) else {
        return (Ending::WriteFault, false);
    };
    let Ok(mut end) = End::listener(rt.alloc(), link) else {
        return (Ending::Memory, false);
    };
    let Ok(mut sink) = MemorySink::new(rt.alloc(), &[]) else {
        return (Ending::Memory, false);
    };
    let ending = serve_on(rt, &mut end, &mut sink);
    (ending, sink.written() == line)
}

#[test]
fn twenty_messages(rt: HostRuntime) -> Result<(), Fail> {
    let listener = SocketListener::bind(&rt, 0).expect(&rt, "a port");
    let port = listener.port();
    let served = thread::spawn(&rt, move || { serve_here(&rt, listener, b"messages 20\n") }).expect(
        &rt, "a thread",
    );
    let address = SocketAddr::V4(SocketAddrV4::new(Ipv4Addr::LOCALHOST, port));
    let link = SocketLink::connect(&rt, address, None)?;
    let Ok(mut end) = End::client(rt.alloc(), link) else {
        panic!(rt; "memory");
    };
    assert_eq!(rt; connect_on(&rt, &mut end, 20), Ending::Done);
    assert_eq!(rt; served.join(&rt), (Ending::Done, true));
    Ok(())
}
