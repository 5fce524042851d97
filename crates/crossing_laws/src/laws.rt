//! Ends of a link that are both asked to leave it.
ghost use Rattle.crossing_laws.specs.Example.{EndsAreMet};
ghost use Rattle.crossing_laws.specs.Laws.{EndsStayAttached, OneEndLeaves, EndsAgree, NothingElseIsWritten, CrossingIsMet};

/// A sender and a receiver that have read each other's Attach, and whatever each has gone through since: as long as
/// both are attached, neither was abandoned and neither session has stopped, no Detach was written or read, and neither
/// has anything against what the other would say as it attaches again.
pub fn ends_stay_attached()
    ensures { EndsStayAttached }
{}

/// One end is asked to detach the link or to close it, and the other has heard it before it is asked anything: each has
/// written one Detach, both are detached and know alike whether the link is closed, and a call that the other end makes
/// then is told so.
pub fn one_end_leaves()
    ensures { OneEndLeaves }
{}

/// Two ends that have attached a link to each other are each asked to detach or to close it before they have read the
/// other's Detach. Once each has read all that the other has written since, they have written just these frames, both
/// are detached, both know alike whether the link is closed, and each call is told how it went.
pub fn ends_agree()
    ensures { EndsAgree }
{}

/// At every moment before that, in whatever order they read, each has written the first of these frames and nothing
/// else, and its call waits until it has written all of them.
pub fn nothing_else_is_written()
    ensures { NothingElseIsWritten }
{}

/// There is such an exchange of every such two ends: each end reads what the other has written.
pub fn crossing_is_met()
    ensures { CrossingIsMet }
{}

/// There are two ends that have attached a link to each other.
pub fn ends_are_met()
    ensures { EndsAreMet }
{}
