//! Which answers of an end are those of its connection.
ghost use Rattle.std.specs.Prelude.{[]};
ghost use Rattle.amqp_peer.specs.declared.peer.PeerKind.{PeerKind};
ghost use Rattle.amqp_peer.specs.Peering.{fresh};
ghost use Rattle.amqp_end.specs.amqp_sessions.State.{none_begun};
ghost use Rattle.amqp_session_world.specs.Answers.{AreOfSessions, IsTold};
ghost use Rattle.amqp_session_world.specs.Laws.{SessionsAnswer, EndsTell, ConnectionsAnswer};

use amqp_wire::link::Link;

/// Sessions answer calls for sessions alone, from the start and whatever their end does.
pub fn sessions_answer<L: Link>()
    ensures begins { AreOfSessions none_begun.replies }
    ensures goes { SessionsAnswer L.Link }
{}

/// What an end tells of its connection are the replies of that connection, in order for each call, from the start and
/// whatever the end does.
pub fn ends_tell<L: Link>()
    ensures begins { (link : L) (kind : PeerKind) → IsTold [] (fresh link kind).replies [] }
    ensures goes { EndsTell L.Link }
{}

/// Two ends made these steps: for each call, the answers of the trace that are of a connection are the first replies in
/// the history of that end's connection. So each has its cause there in what happened before it, and each answers a
/// call that a step of that end makes on its connection, and none for a session or a link.
pub fn connections_answer()
    ensures { ConnectionsAnswer }
{}
