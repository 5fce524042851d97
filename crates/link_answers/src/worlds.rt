//! That the links of one end were handed what links of the other have put out.
ghost use Rattle.link_answers.specs.Coming.{NoneComes, EndsPass, TracesPass};
ghost use Rattle.link_answers.specs.Worlds.{EndsMeet};

use amqp_wire::link::Link;

/// From the start, and whatever an end does. What the links of a session are handed of the peer was in a frame heard on a channel on which the
/// peer has begun that session: an Attach, a Disposition and a Detach the same, a Transfer with its bytes, a Flow that names a link. Each frame
/// that the sessions give to the connection comes of the links of a session on its channel: an Attach, a Disposition and a Detach are theirs, a
/// Transfer is a part of one of theirs, with a piece of its bytes, and a Flow is one of theirs with the state of the session in it, or names no
/// link. So a session writes no frame of a link by itself.
pub fn ends_pass<L: Link>()
    ensures begins { NoneComes }
    ensures goes { EndsPass L.Link }
{}

/// Two ends made these steps: so it is at each of them, from the start.
pub fn traces_pass()
    ensures { TracesPass }
{}

/// Two ends made these steps. What the links of the one were handed of the peer links of the other have put out, on a session that faces theirs:
/// Dispositions and Detaches the same, an Attach as it is read again, a Flow with the state of its session, and of a Transfer a part. So a link is
/// answered to be made only where links of the other end have put out an Attach for it; to be left, and that the peer has left it, only where
/// they have put out a Detach that says so; an outcome of a message that is told they have said by a Disposition, or it was sent settled; and of a
/// delivery that is told each Transfer is a part of one that they have put out.
pub fn ends_meet()
    ensures { EndsMeet }
{}
