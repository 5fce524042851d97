//! Why calls go on waiting at the links of an end.
ghost use Rattle.link_waits.specs.Laws.{NoneWaits, AllWaitOn};

/// Whatever the links of an end do from the start: each call that waits at a link does so for the peer, or for the end of
/// its session, as `calls_wait` of call_waits says, and one that accepts a link waits while no Attach of the peer does. The
/// calls are those that links take, and a session is over only once its links know that it has stopped.
pub fn all_calls_wait()
    ensures none { NoneWaits }
    ensures kept { AllWaitOn }
{}
