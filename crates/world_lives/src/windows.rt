//! The windows that sessions of two ends announce and keep.
ghost use Rattle.world_lives.specs.WorldWindows.Facing.{WindowIsKept, WaitsForTheBegin};
ghost use Rattle.world_lives.specs.WorldWindows.Hearing.{EndsAnnounce, EndsHear};
ghost use Rattle.world_lives.specs.WorldWindows.Keeping.{KeepsFacing};
ghost use Rattle.world_lives.specs.WorldWindows.Living.{OneLivesFromItsBegin};
ghost use Rattle.world_lives.specs.WorldWindows.Making.{EachIsMade, EachIsOfOne};

/// Whatever the sessions of an end do from where none was begun: each that stands was made by a deed before, and is
/// behind moves of its own since.
pub fn each_is_made()
    ensures { EachIsMade }
{}

/// And each frame that they have given to their connection, or are still to give, is of a session that was made: it is
/// on the channel of that, and a Begin or a Flow names as its incoming-window the number with which that was built.
pub fn each_is_of_one()
    ensures { EachIsOfOne }
{}

/// The session that a deed makes under a name, where none is made under it since, is let go, or goes through a life
/// from its begin on: it has heard the frames that came for it, and each Begin and each Flow that it has given names
/// the window with which it was built. As long as it has read no Begin it has given no Transfer.
pub fn one_lives_from_its_begin()
    ensures { OneLivesFromItsBegin }
{}

/// At each of two ends that made steps from the start, each frame that its sessions have given to its connection, or
/// are still to give, is so of a session that it made.
pub fn ends_announce()
    ensures { EndsAnnounce }
{}

/// And so it is with what the sessions of the one end are handed: each Begin by which one is asked for that they have
/// accepted, and each other frame, is of a session that the other end made, and names its window.
pub fn ends_hear()
    ensures { EndsHear }
{}

/// Two sessions, each from its begin on, of which each has heard a front of what the other has given, as frames are
/// read again and Begins aside: the one has written no more Transfers than the other has heard and the incoming window
/// with which that was built.
pub fn keeps_facing()
    ensures { KeepsFacing }
{}

/// Two sessions of two ends that made steps from the start, each from a moment on at which it stands, begun by the
/// peer on the channel of the other, where nothing was on its way between the two: the one has written no more
/// Transfers than the other has heard and the incoming window with which that was built, and each Begin and each Flow
/// that it has heard names that window.
pub fn window_is_kept()
    ensures { WindowIsKept }
{}

/// And a session that stands at a moment has written no Transfer as long as it has read no Begin.
pub fn waits_for_the_begin()
    ensures { WaitsForTheBegin }
{}
