//! A link over a socket of TCP.
ghost use Rattle.std.specs.Prelude.{◌≡◌, None, ⊤};
ghost use Rattle.std.specs.Io.{ReadsAtMost, WritesAtMost};
ghost use Rattle.amqp_wire.specs.Link.{HasCause};

use crate::wait_link::{LinkFault, WaitLink};
use amqp_wire::link::{Link, LinkRead, LinkWrite};
use amqp_wire::status::Status;
use mio::net::TcpStream;
use mio::{Events, Interest, Poll, Token};
use std::io;
use std::io::{ErrorKind, Read, Write};
use std::net::{Net, SocketAddr};
use std::time::Duration;

/// How often a call that a signal ended is made again before it counts as a fault.
const TRIES: u32 = 1_000;

/// How many bytes are read in a row: then a read finds nothing, so that a peer which goes on sending does not hold up the caller.
const AT_ONCE: usize = 65_536;

/// The name of the socket in the events of its poll.
const SOCKET: Token = Token(0);

/// A link over a socket that does not block. It tells nothing of the bytes that pass, and counts its faults: each read, write and
/// wait that the system refused, and the end of the input.
pub struct SocketLink {
    stream: TcpStream,
    poll: Poll,
    events: Events,
    /// Whether the last write found no room.
    is_full: bool,
    /// The longest that a wait takes; with none it takes as long as nothing happens.
    limit: Option<Duration>,
    faults: u64,
    /// How many reads have given bytes.
    reads: u64,
    /// How many bytes were read since a read found nothing.
    in_a_row: usize,
    /// The direction of the first fault, where there was one.
    first: LinkFault,
}

// A link is let go by a call, so that no caller sees what it holds.
impl Drop for SocketLink {
    fn drop(self) {
        let SocketLink {
            stream,
            poll,
            events,
            is_full: _,
            limit: _,
            faults: _,
            reads: _,
            in_a_row: _,
            first: _,
        } = self;
        drop(stream);
        drop(poll);
        drop(events);
    }
}

/// Reads, again where a signal ended the call.
fn read_from(stream: &mut TcpStream, buf: &mut [u8]) -> io::Result<usize>
    ensures { ReadsAtMost result buf.new }
{
    for _ in 0..TRIES {
        match stream.read(buf) {
            Ok(count) => return Ok(count),
            Err(error) if error.kind() == ErrorKind::Interrupted => {}
            Err(error) => return Err(error),
        }
    }
    Err(io::Error::from(ErrorKind::Interrupted))
}

/// Writes, again where a signal ended the call.
fn write_to(stream: &mut TcpStream, piece: &[u8]) -> io::Result<usize>
    ensures { WritesAtMost result piece.now }
{
    for _ in 0..TRIES {
        match stream.write(piece) {
            Ok(count) => return Ok(count),
            Err(error) if error.kind() == ErrorKind::Interrupted => {}
            Err(error) => return Err(error),
        }
    }
    Err(io::Error::from(ErrorKind::Interrupted))
}

/// The status of a run whose socket could not be made.
pub(crate) fn status_of(error: io::Error) -> Status {
    match error.kind() {
        ErrorKind::OutOfMemory => Status::Memory,
        _ => Status::WriteFault,
    }
}

impl SocketLink {
    /// A link over that stream, which does not block. Its waits take as long as nothing happens.
    pub fn over<R: Net + AllocGlobal>(rt: &R, mut stream: TcpStream) -> io::Result<Self> {
        let poll = Poll::new(rt)?;
        let events = Events::with_capacity(rt.alloc(), 1)?;
        poll.registry()
            .register(&mut stream, SOCKET, Interest::READABLE)?;
        Ok(SocketLink {
            stream,
            poll,
            events,
            is_full: false,
            limit: None,
            faults: 0,
            reads: 0,
            in_a_row: 0,
            first: LinkFault::Writing,
        })
    }

    /// A link to that address. With a limit it gives up after so long with `TimedOut`, as its waits do.
    pub fn connect<R: Net + AllocGlobal>(
        rt: &R,
        address: SocketAddr,
        limit: Option<Duration>,
    ) -> io::Result<Self> {
        let stream = TcpStream::connect(rt, address)?;
        let mut link = SocketLink::over(rt, stream)?;
        link.limit = limit;
        link.is_full = true;
        link.poll_once()?;
        if let Some(error) = link.stream.take_error()? {
            return Err(error);
        }
        match link.stream.peer_addr() {
            Ok(_) => {}
            Err(error) if error.kind() == ErrorKind::NotConnected => {
                return Err(io::Error::from(ErrorKind::TimedOut));
            }
            Err(error) => return Err(error),
        }
        link.stream.set_nodelay(true)?;
        link.is_full = false;
        Ok(link)
    }

    /// The longest that a wait takes from now on; with none it takes as long as nothing happens.
    pub fn set_limit(&mut self, limit: Option<Duration>) {
        self.limit = limit;
    }

    /// Waits until the socket is ready, a signal came or the limit is over.
    fn poll_once(&mut self) -> io::Result<()>
        ensures { self.new.faults ≡ self.old.faults }
    {
        let interests = if self.is_full {
            Interest::READABLE | Interest::WRITABLE
        } else {
            Interest::READABLE
        };
        // It reports again what is ready, so that nothing that was left is missed.
        self.poll
            .registry()
            .reregister(&mut self.stream, SOCKET, interests)?;
        self.poll.poll(&mut self.events, self.limit)
    }

    fn count_read(&mut self, bytes: usize)
        ensures { self.new.faults ≡ self.old.faults }
    {
        self.reads = self.reads.saturating_add(1);
        self.in_a_row = self.in_a_row.saturating_add(bytes);
    }

    fn count_fault(&mut self, fault: LinkFault)
        ensures { HasCause self.old.faults self.new.faults ⊤ }
    {
        if self.faults == 0 {
            self.first = fault;
        }
        self.faults = self.faults.saturating_add(1);
    }
}

impl Link for SocketLink {
    ghost input = { λ _. None };

    ghost ready = { λ _. None };

    ghost output = { λ _. None };

    ghost mark = { λ _. 0 };

    ghost can_fill = { λ _. ⊤ };

    ghost can_end = { λ _. ⊤ };

    ghost faults = { λ s. s.faults };

    fn read(&mut self, buf: &mut [u8]) -> LinkRead {
        if buf.is_empty() || self.in_a_row >= AT_ONCE {
            self.in_a_row = 0;
            return LinkRead::Empty;
        }
        match read_from(&mut self.stream, buf) {
            Ok(0) => {
                self.count_fault(LinkFault::Reading);
                LinkRead::End
            }
            Ok(count) => {
                self.count_read(count);
                LinkRead::Bytes(count)
            }
            Err(error) if error.kind() == ErrorKind::WouldBlock => {
                self.in_a_row = 0;
                LinkRead::Empty
            }
            Err(_) => {
                self.count_fault(LinkFault::Reading);
                LinkRead::Failed
            }
        }
    }

    fn write(&mut self, piece: &[u8]) -> LinkWrite {
        self.is_full = false;
        match write_to(&mut self.stream, piece) {
            Ok(count) if count > 0 || piece.is_empty() => LinkWrite::Took(count),
            Err(error) if error.kind() == ErrorKind::WouldBlock => {
                self.is_full = true;
                LinkWrite::Full
            }
            _ => {
                self.count_fault(LinkFault::Writing);
                LinkWrite::Failed
            }
        }
    }
}

impl WaitLink for SocketLink {
    fn wait(&mut self) -> bool {
        match self.poll_once() {
            Ok(()) => true,
            Err(_) => {
                self.count_fault(LinkFault::Writing);
                false
            }
        }
    }

    fn reads(&self) -> u64 {
        self.reads
    }

    fn fault(&self) -> Option<LinkFault> {
        if self.faults > 0 {
            Some(self.first)
        } else {
            None
        }
    }
}
