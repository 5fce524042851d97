//! What sessions hear of deliveries and of credit, and what comes of it.
ghost use Rattle.world_lives.specs.OutcomeLives.Granting.{CreditIsGranted};
ghost use Rattle.world_lives.specs.OutcomeLives.Hearing.{WordsAreHeard};
ghost use Rattle.world_lives.specs.OutcomeLives.Returning.{OutcomesReturn};
ghost use Rattle.world_lives.specs.OutcomeLives.Saying.{ReceiversGrant, ReceiversRule};

/// Of two sessions that hear each other as `sessions_hear` of world_lives says: the Dispositions of receivers that
/// the one has heard since its moment are the first of those that the other has written since its own, each once,
/// in order and as it was written, where none was on its way between the two moments; and so it is with the Flows
/// on a handle.
pub fn words_are_heard()
    ensures { WordsAreHeard }
{}

/// Each Disposition of a receiver that a session takes of its links, and each Flow on a handle, the receiver of that
/// session has written, where no other link has written one in the session and none was on its way between the two.
pub fn receivers_say()
    ensures deliveries { ReceiversRule }
    ensures credit { ReceiversGrant }
{}

/// As `outcomes_were_given` of session_laws, but that no more is asked of the frames which the sender's session
/// hears than that each Disposition of a receiver among them was written by the session at the receivers.
pub fn outcomes_return()
    ensures { OutcomesReturn }
{}

/// As `sends_what_is_granted` of session_laws, but that no more is asked of the frames which the sender's session
/// hears than that each Flow on the handle among them was written by the session at the receiver. And the credit
/// that the sender has is what the last Flow gave that it has heard, less what it has sent since; and that Flow is
/// one that the receiver has written, with its delivery-count and its link-credit, if it gave any credit.
pub fn credit_is_granted()
    ensures { CreditIsGranted }
{}
