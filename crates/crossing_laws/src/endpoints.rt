//! A sender and a receiver that are both asked to leave their link.
ghost use Rattle.crossing_laws.specs.Moving.{SenderMovesItsLink, ReceiverMovesItsLink};
ghost use Rattle.crossing_laws.specs.Endpoints.{SenderAndReceiverAgree, SenderAndReceiverMeet};

/// The same as `ends_agree` of a sender and a receiver, whatever deliveries they have: each reads by its own rules, and
/// says as it attaches again which deliveries are not settled.
pub fn sender_and_receiver_agree()
    ensures { SenderAndReceiverAgree }
{}

/// There is such an exchange of every such sender and receiver.
pub fn sender_and_receiver_meet()
    ensures { SenderAndReceiverMeet }
{}

/// Whatever call is made of a sender, and whatever it reads: its link goes on by moves of its own, as
/// `ends_stay_attached` has them.
pub fn sender_moves_its_link()
    ensures { SenderMovesItsLink }
{}

/// Whatever call is made of a receiver, and whatever it reads: its link goes on by such moves.
pub fn receiver_moves_its_link()
    ensures { ReceiverMovesItsLink }
{}
