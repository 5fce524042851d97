//! Why calls go on waiting at the sessions of an end.
ghost use Rattle.session_waits.specs.Laws.{NoneWaits, AllWaitOn};

/// Whatever the sessions of an end do from the start, as long as the connection has not stopped: a `begin` that waits does so
/// while this end has sent its Begin and the peer's was not read, and an `end` while this end has sent its End and the peer's
/// was not read; and in each session a Transfer of a link waits only where the peer's window has no room. Where the connection has
/// stopped neither call waits (`waits_no_more` of amqp_sessions).
pub fn session_calls_wait()
    ensures none { NoneWaits }
    ensures kept { AllWaitOn }
{}
