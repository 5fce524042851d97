//! Senders among all links of an end.
ghost use Rattle.sender_hears.specs.Laws.{DeedsAreHeard, OneSenderHears};

/// Whatever the links of an end do: each link that stood before, and that no call of the deed makes, goes on by the
/// moves of its kind, as link_lives says. Of the frames that its session hands over, a sender hears in them the Flow on
/// the peer's handle that leads to it, and of a Disposition what it says of the deliveries whose numbers are of that
/// sender, until both ends have sent their Detach; and it hears nothing else of credit or of deliveries.
pub fn deeds_are_heard()
    ensures { DeedsAreHeard }
{}

/// The sender that stands under a name goes through a life, as long as no call of that name is made, and what it hears
/// of credit and of its deliveries is just what is for it, in order.
pub fn one_sender_hears()
    ensures { OneSenderHears }
{}
