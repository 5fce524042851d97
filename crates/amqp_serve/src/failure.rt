//! Why a run over a link goes no further.
ghost use Rattle.std.specs.Prelude.{◌≡◌, ◌↔◌, ◌⊎◌, OnOk, IfErr};
ghost use Rattle.amqp_serve.specs.Endings.{IsFailure, IsOfPeer, IsSound, HasFault};

use amqp_calls::Reply;
use amqp_end::End;
use amqp_net::{LinkFault, WaitLink};
use amqp_served::Ending;
use std::alloc::AllocError;

/// Why a run goes no further.
pub enum Failure {
    /// Memory was wanting.
    Memory,
    /// A wait failed.
    Waiting,
    /// A call was answered by this error.
    Answer(Reply),
    /// A call may not be made, since what it is for has ended.
    Over,
    /// The time that was given is over.
    TimedOut,
    /// A call was answered by something else than it asks for.
    Unexpected,
}

impl From<AllocError> for Failure {
    ghost use Rattle.amqp_serve.specs.declared.failure.Failure.TheVariants.{Memory};

    ghost from_gives = { λ _ f. f ≡ Memory };

    fn from(_error: AllocError) -> Self {
        Failure::Memory
    }
}

// A failure is let go by a call, so that no caller sees the parts of an answer.
impl Drop for Failure {
    fn drop(self) {
        match self {
            Failure::Answer(reply) => drop(reply),
            Failure::Memory
            | Failure::Waiting
            | Failure::Over
            | Failure::TimedOut
            | Failure::Unexpected => {}
        }
    }
}

/// How a run ends by a fault of the link, where that has one.
pub(crate) fn check_link<L: WaitLink>(end: &End<L>) -> Result<(), Ending>
    ensures sound { OnOk result (IsSound L.Link end.now) }
    ensures failure { IfErr result IsFailure }
    ensures fault { IfErr result (λ _. HasFault L.Link end.now) }
    ensures memory { IfErr result (λ ending. ¬ (ending ≡ Ending.Memory)) }
    ensures timed_out { IfErr result (λ ending. ¬ (ending ≡ Ending.TimedOut)) }
    ensures peer { IfErr result (λ ending. ¬ (ending ≡ Ending.PeerFault)) }
{
    match end.link_ref().fault() {
        Some(LinkFault::Reading) => Err(Ending::ReadFault),
        Some(LinkFault::Writing) => Err(Ending::WriteFault),
        None => Ok(()),
    }
}

/// How a run ends that has done all: by a fault of the link, where that has one.
pub fn ending_done<L: WaitLink>(end: &End<L>) -> Ending
    ensures sound { (result ≡ Ending.Done) → IsSound L.Link end.now }
    ensures fault { (result ≡ Ending.Done) ⊎ HasFault L.Link end.now }
    ensures usage { ¬ (result ≡ Ending.Usage) }
    ensures peer { ¬ (result ≡ Ending.PeerFault) }
{
    match check_link(end) {
        Ok(()) => Ending::Done,
        Err(ending) => ending,
    }
}

/// How a run ends that the peer or the link has ended: by a fault of the link, where that has one.
fn ending_of_link<L: WaitLink>(end: &End<L>) -> Ending
    ensures failure { IsFailure result }
    ensures fault { (result ≡ Ending.PeerFault) ⊎ HasFault L.Link end.now }
    ensures peer { result ≡ Ending.PeerFault → IsSound L.Link end.now }
    ensures memory { ¬ (result ≡ Ending.Memory) }
    ensures timed_out { ¬ (result ≡ Ending.TimedOut) }
{
    match check_link(end) {
        Ok(()) => Ending::PeerFault,
        Err(ending) => ending,
    }
}

/// How a run ends for this failure.
pub fn ending_of<L: WaitLink>(end: &End<L>, failure: &Failure) -> Ending
    ensures failure { IsFailure result }
    ensures read_fault { result ≡ Ending.ReadFault → HasFault L.Link end.now }
    ensures write_fault { result ≡ Ending.WriteFault → (failure.now ≡ Failure.Waiting) ⊎ HasFault L.Link end.now }
    ensures peer_fault { result ≡ Ending.PeerFault → IsSound L.Link end.now }
    ensures peer_cause { result ≡ Ending.PeerFault → IsOfPeer failure.now }
    ensures memory { (result ≡ Ending.Memory) ↔ (failure.now ≡ Failure.Memory) }
    ensures timed_out { (result ≡ Ending.TimedOut) ↔ (failure.now ≡ Failure.TimedOut) }
{
    match failure {
        Failure::Memory => Ending::Memory,
        Failure::Waiting => Ending::WriteFault,
        Failure::Answer(_) | Failure::Over | Failure::Unexpected => ending_of_link(end),
        Failure::TimedOut => Ending::TimedOut,
    }
}
