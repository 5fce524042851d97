//! A socket of TCP that takes connections.
use crate::socket::{SocketLink, status_of};
use amqp_wire::status::Status;
use mio::net::{TcpListener, TcpStream};
use mio::{Events, Interest, Poll, Token};
use std::io;
use std::io::ErrorKind;
use std::net::{Ipv4Addr, Net, SocketAddr, SocketAddrV4};
use std::sync::Wait;

/// A socket of the loopback that takes connections.
#[derive(Drop)]
pub struct SocketListener {
    listener: TcpListener,
    port: u16,
}

fn bound<R: Net>(rt: &R, port: u16) -> io::Result<SocketListener> {
    let address = SocketAddr::V4(SocketAddrV4::new(Ipv4Addr::LOCALHOST, port));
    let listener = TcpListener::bind(rt, address)?;
    let port = listener.local_addr()?.port();
    Ok(SocketListener { listener, port })
}

impl SocketListener {
    /// Binds to that port of the loopback, 127.0.0.1; to a free one where it is 0. The errors are `Memory`, and `WriteFault` where the
    /// system refused it.
    pub fn bind<R: Net>(rt: &R, port: u16) -> Result<Self, Status> {
        match bound(rt, port) {
            Ok(listener) => Ok(listener),
            Err(error) => Err(status_of(error)),
        }
    }

    /// The port.
    pub fn port(&self) -> u16 {
        self.port
    }

    /// Waits for a connection. The errors are `Memory`, and `WriteFault` where the system refused it.
    pub fn accept<R: Net + AllocGlobal + Wait>(&mut self, rt: &R) -> Result<SocketLink, Status> {
        match self.next_link(rt) {
            Ok(link) => Ok(link),
            Err(error) => Err(status_of(error)),
        }
    }

    fn next_link<R: Net + AllocGlobal + Wait>(&mut self, rt: &R) -> io::Result<SocketLink> {
        let mut poll = Poll::new(rt)?;
        let mut events = Events::with_capacity(rt.alloc(), 1)?;
        poll.registry()
            .register(&mut self.listener, Token(0), Interest::READABLE)?;
        let stream = next_stream(rt, &self.listener, &mut poll, &mut events)?;
        poll.registry().deregister(&mut self.listener)?;
        stream.set_nodelay(true)?;
        SocketLink::over(rt, stream)
    }
}

/// Waits until a connection is there.
fn next_stream<R: Wait>(
    rt: &R,
    listener: &TcpListener,
    poll: &mut Poll,
    events: &mut Events,
) -> io::Result<TcpStream> {
    for _ in rt.forever() {
        match listener.accept() {
            Ok((stream, _)) => return Ok(stream),
            Err(error) if error.kind() == ErrorKind::WouldBlock => {}
            Err(error) if error.kind() == ErrorKind::Interrupted => {}
            Err(error) => return Err(error),
        }
        poll.poll(events, None)?;
    }
    unreachable!()
}
