//! Why a call goes on waiting at a link.
ghost use Rattle.call_waits.specs.Laws.{SenderWaits, ReceiverWaits, AcceptedWaits, WaitsOn, SendWaits, RecvWaits};

/// A call that attaches a link waits while an answer of the peer to its Attach may come, or the Detach of a link that was
/// refused; one that detaches or closes it, or waits for that, for the peer's Detach; one for the outcome of a message while
/// nothing was told of that and something may be. So it is when the link is made, and whatever it goes through. Once its
/// session has stopped they wait until that is over, and none waits behind that.
pub fn calls_wait()
    ensures sender { SenderWaits }
    ensures receiver { ReceiverWaits }
    ensures accepted { AcceptedWaits }
    ensures on { WaitsOn }
{}

/// A message that is sent without a time and a call that receives are told to wait once and for all: the first only where there
/// is no credit and nothing else hinders it; the second where nothing that was read makes a delivery complete, neither end has
/// left the link and its session has not stopped.
pub fn told_to_wait()
    ensures send { SendWaits }
    ensures recv { RecvWaits }
{}
