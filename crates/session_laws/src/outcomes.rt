//! What becomes of messages.
ghost use Rattle.session_laws.specs.Settling.{OutcomesWereHeard};
ghost use Rattle.session_laws.specs.Giving.{SaysWhatIsGiven};
ghost use Rattle.session_laws.specs.Outcomes.{OutcomesWereGiven, TagsAreApart};

#[tactic(auto, using(crate::proofs::Settles::outcomes_were_heard))]
/// Whatever a sender goes through: for each message that it has sent it has no outcome, or Accepted where the
/// message was sent settled, or what a Disposition has said of the delivery with its tag.
pub fn outcomes_were_heard()
    ensures { OutcomesWereHeard }
{}

/// Whatever a receiver goes through from a moment at which it has said nothing of deliveries: each Disposition that
/// it writes says of each delivery that it covers what a call has given that delivery, or that it was accepted as it
/// was received.
pub fn says_what_is_given()
    ensures { SaysWhatIsGiven }
{}

/// What a sender knows of a message that it has sent is nothing, or Accepted where the message was sent settled, or
/// what a receiver at the other end has given the delivery with its number. The premises: those of
/// `messages_arrive_in_order` (`Path`), and that the other session takes no Disposition of a receiver but those that
/// its receivers write, the sender's session hears a front of what that one writes, and the sender hears of it what
/// the table of numbers says (`Back`).
pub fn outcomes_were_given()
    ensures { OutcomesWereGiven }
{}

#[tactic(auto, using(crate::proofs::Tags::tags_are_apart))]
/// No two messages that a sender sends have one tag as long as its delivery-count has not gone round: as long as no
/// more than 2^32 deliveries were sent or used up by drains.
pub fn tags_are_apart()
    ensures { TagsAreApart }
{}
