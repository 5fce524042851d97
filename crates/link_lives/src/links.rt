//! Links among all links of an end.
ghost use Rattle.link_lives.specs.Laws.{OneLinkLives, LinksLive, OneSenderLives, OneReceiverLives};

/// Whatever the links of an end do: what goes to the sessions is what the links have told, in order; and each link
/// that stood before, and that no call of the deed makes, goes on by the moves of its kind, on the same session, and
/// has told just that. A receiver has read the Transfers on its handle, and no others.
pub fn one_link_lives()
    ensures { OneLinkLives }
{}

/// The same of deeds one after another.
pub fn links_live()
    ensures { LinksLive }
{}

/// The sender that stands under a name goes through a life, as long as no call of that name is made. Where no other
/// link of its session has written on its handle, the Transfers on that handle that went to the session, and that
/// still are to, are those that were to go and those that it has handed over, in order.
pub fn one_sender_lives()
    ensures { OneSenderLives }
{}

/// The receiver that stands under a name goes through a life, as long as no call of that name is made. It has read
/// the Transfers that came on its handle, in order.
pub fn one_receiver_lives()
    ensures { OneReceiverLives }
{}
