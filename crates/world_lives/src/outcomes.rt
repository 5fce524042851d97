//! Outcomes and credit of two ends in a run of steps.
ghost use Rattle.world_lives.specs.OutcomeLives.Coming.{CreditIsCarried, OutcomesAreCarried};

/// A receiver of the one end and a sender of the other that stand at two moments, each with its session, of which
/// the receiver's is alone on its channel, and the peer has begun the sender's on that: they go on by moves. Where
/// no Flow of the link was on its way, no other link of the receiver's session writes one on its handle, and the
/// sender hears the Flows alone that its session hands over on it: the sender has sent each message by credit that
/// the receiver has given, and the credit that it has is that of a Flow which the receiver has written, less what
/// was sent since.
pub fn credit_is_carried()
    ensures { CreditIsCarried }
{}

/// The same of outcomes, where the messages of the link arrive (`links_carry` of world_lives), no Disposition of a
/// receiver was on its way, no other link of the receiver's session writes one, and the sender hears of deliveries
/// what the table of numbers says: what the sender knows of a message is nothing, or Accepted where it was sent
/// settled, or what the receiver has given the delivery with its number.
pub fn outcomes_are_carried()
    ensures { OutcomesAreCarried }
{}
