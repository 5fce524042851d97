//! How a run over a socket ends.
ghost use Rattle.std.specs.Prelude.{◌≡◌};
ghost use Rattle.amqp_served.specs.Ending.{exit_code_of};

use std::fmt;

/// How a run over a socket ended.
#[derive(Clone, Copy, Debug, PartialEq, Eq)]
pub enum Ending {
    /// All was done.
    Done,
    /// The words are no command.
    Usage,
    /// Memory was wanting.
    Memory,
    /// A read of the socket failed, or its input ended before the connection was closed.
    ReadFault,
    /// A write to the socket or to the sink failed, or the socket could not be made or waited for.
    WriteFault,
    /// The peer refused what it was asked, or ended it with an error.
    PeerFault,
    /// It was not done within the time that was given.
    TimedOut,
}

impl Ending {
    /// The number with which the process ends.
    pub fn exit_code(self) -> u8
        ensures { result ≡ exit_code_of self }
    {
        match self {
            Ending::Done => 0,
            Ending::Usage => 2,
            Ending::Memory => 5,
            Ending::ReadFault => 6,
            Ending::WriteFault => 7,
            Ending::PeerFault => 10,
            Ending::TimedOut => 13,
        }
    }
}

/// The line for standard error.
impl fmt::Display for Ending {
    fn fmt<W: fmt::Write>(&self, f: &mut fmt::Formatter<W>) -> fmt::Result {
        match *self {
            Ending::Done => f.write_str("done"),
            Ending::Usage => f.write_str("usage"),
            Ending::Memory => f.write_str("no memory"),
            Ending::ReadFault => f.write_str("read fault"),
            Ending::WriteFault => f.write_str("write fault"),
            Ending::PeerFault => f.write_str("peer fault"),
            Ending::TimedOut => f.write_str("timed out"),
        }
    }
}
