//! What a run over a link leaves in the bytes of that link.
ghost use Rattle.served_connection.specs.ServeLaws.History.{LivesBegin, LivesGo, LivesDo};
ghost use Rattle.served_connection.specs.ServeLaws.Runs.{ServedRun, ConnectedRun, LeftRun};

use amqp_wire::link::Link;

/// An end on which nothing was done has lived nothing, and one that has lived goes on so, whatever is done with it in
/// turns: there is a history of its connection, with its frames and its replies, whose bytes are those that passed at
/// its link. A wait for the link moves none. What it did in that time is what it did in those turns.
pub fn ends_live<L: Link>()
    ensures begins { LivesBegin L.Link }
    ensures goes { LivesGo L.Link }
    ensures deeds { LivesDo L.Link }
{}

/// An end on which nothing was done before, and that was served until its peer had closed the connection: it has such a
/// history, in which the last frame that it read is a Close without an error, whole in the bytes that it read.
pub fn served_run<L: Link>()
    ensures { ServedRun L.Link }
{}

/// An end on which nothing was done before, that sent messages and closed the connection: it has such a history, in
/// which the last frame that it queued is its own Close, whole in the bytes that it wrote unless the link was full at
/// some time, and it read a Close without an error, whole in the bytes that it read.
pub fn connected_run<L: Link>()
    ensures { ConnectedRun L.Link }
{}

/// An end on which nothing was done before, that closed the connection behind any turns: it has such a history, in which
/// the last frame that it queued is its own Close, whole in the bytes that it wrote unless the link was full at some
/// time, and it read a Close without an error, whole in the bytes that it read.
pub fn left_run<L: Link>()
    ensures { LeftRun L.Link }
{}
