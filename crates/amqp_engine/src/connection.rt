//! What an end is as its connection begins.
ghost use Rattle.std.specs.Prelude.{◌≡◌, max};
ghost use Rattle.amqp_engine.specs.Settings.{settings_of, settings_of_end, open_of};

use amqp_transport::amqp_performatives::open::Open;

/// The end that has made the connection.
#[derive(Debug, Drop)]
pub struct Connection {
    /// What it says of itself.
    pub local_open: Open,
}

impl Connection {
    /// The end that says this of itself.
    pub fn new(local_open: Open) -> Self
        ensures { result.local_open ≡ local_open }
    {
        Connection { local_open }
    }
}

/// The end that has taken the connection; its peer may begin sessions.
#[derive(Debug, Drop)]
pub struct ListenerConnection {
    /// What it says of itself.
    pub local_open: Open,
}

impl ListenerConnection {
    /// The end that says this of itself.
    pub fn new(local_open: Open) -> Self
        ensures { result.local_open ≡ local_open }
    {
        ListenerConnection { local_open }
    }
}

/// Which of the two ends it is.
#[derive(Debug)]
pub enum EndKind {
    /// The end that has made the connection.
    Client(Connection),
    /// The end that has taken it.
    Listener(ListenerConnection),
}

// An end is let go by a call, so that no caller sees the parts of its Open.
impl Drop for EndKind {
    fn drop(self) {
        match self {
            EndKind::Client(end) => drop(end),
            EndKind::Listener(end) => drop(end),
        }
    }
}

/// What an engine keeps of both ends' Opens.
#[derive(Clone, Copy, Debug, PartialEq, Eq)]
pub struct Settings {
    /// Whether the peer may begin sessions.
    pub is_listener: bool,
    /// The largest frame that this end takes, in bytes, at least 512.
    pub largest_read: usize,
    /// The largest frame that may be written, in bytes: 512, and then what the peer takes.
    pub largest_written: usize,
    /// The highest number of a channel: this end's, and then the lesser of both.
    pub channel_max: u16,
}

fn settings_from(is_listener: bool, local: &Open) -> Settings
    ensures { result ≡ settings_of is_listener local.now }
{
    Settings {
        is_listener,
        largest_read: (local.max_frame_size as usize).max(512),
        largest_written: 512,
        channel_max: local.channel_max,
    }
}

impl EndKind {
    /// What is kept, and what is written.
    pub(crate) fn into_parts(self) -> (Settings, Open)
        ensures settings { result.0 ≡ settings_of_end self }
        ensures value { result.1 ≡ open_of self }
    {
        match self {
            EndKind::Client(end) => (settings_from(false, &end.local_open), end.local_open),
            EndKind::Listener(end) => (settings_from(true, &end.local_open), end.local_open),
        }
    }
}
