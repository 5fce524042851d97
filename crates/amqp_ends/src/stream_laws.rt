//! Laws over the sessions of two ends (OASIS AMQP 1.0, part 2, section 2.5).
ghost use Rattle.std.specs.Prelude.{List, map};
ghost use Rattle.amqp_transport.specs.declared.frames.Frame.{Frame};
ghost use Rattle.amqp_transport.specs.Kinds.{amqp_again};
ghost use Rattle.amqp_peer.specs.Frames.{asking_of, others_of};
ghost use Rattle.amqp_peer.specs.History.{Local};
ghost use Rattle.amqp_ends.specs.Joined.{Meets};
ghost use Rattle.amqp_ends.specs.Streams.{IsFront, Carries};

/// What the sessions of one end were handed is the front of what the sessions of the other gave to their connection, as it is
/// read again: the frames that ask for a session, and the others.
pub fn streams_join()
    ensures { (h far : List Local) (asked heard gave far_asked far_heard far_gave : List Frame) → Meets h far
        → Carries asked heard gave h → Carries far_asked far_heard far_gave far
        → IsFront asked (map amqp_again (asking_of far_gave)) × IsFront heard (map amqp_again (others_of far_gave)) }
{}
