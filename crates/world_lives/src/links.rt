//! Links of two ends in a run of steps.
ghost use Rattle.world_lives.specs.WorldLinks.Carrying.{LinksAgree, HandlesLead, AgreedLinksCarry};

/// At each moment of an end that uses each name once the tables of its links agree with the links. So a handle of
/// the peer that leads to a receiver leads to it as each Transfer is heard, as long as the peer neither detaches
/// the link nor attaches it, or another on that handle, again.
pub fn links_agree()
    ensures agree { LinksAgree }
    ensures lead { HandlesLead }
{}

/// So the answers of a receiver are the first of the messages that the sender at the other end has sent, where both
/// ends have attached the link by the same two Attaches and nothing of it was on its way, as `links_carry` of
/// world_lives says. That no other link writes on the sender's handle, that the peer's handle leads to the
/// receiver, and that no call waits under the names of both, is not asked for any more: only that the sender's end
/// has not both sent and read a Detach, and that the receiver's end hears neither a Detach of the link nor another
/// Attach of it or on its handle.
pub fn agreed_links_carry()
    ensures { AgreedLinksCarry }
{}
