//! What a session announces, counts and keeps, from its begin on.
ghost use Rattle.window_laws.specs.Announcing.{AnnouncesItsWindow};
ghost use Rattle.window_laws.specs.Example.{WindowIsMet};
ghost use Rattle.window_laws.specs.Counting.{NumbersItsTransfers, ReportsWhatItHeard, ReportsNoMore};
ghost use Rattle.window_laws.specs.Granting.{WritesWhatIsGranted};
ghost use Rattle.window_laws.specs.Keeping.{KeepsTheWindow, KeepsTheWindowForEver, KeepsWhatItHears, WaitsForTheBegin};

#[tactic(auto, using(crate::proofs::Announces::announces_its_window))]
/// Whatever a session goes through from its begin on: its incoming window stays as it was built, and each Begin and
/// each Flow that it writes names it.
pub fn announces_its_window()
    ensures { AnnouncesItsWindow }
{}

#[tactic(auto, using(crate::proofs::Counts::numbers_its_transfers))]
/// Whatever a session goes through from its begin on: each Begin and each Flow that it writes names as
/// next-outgoing-id the number of its first Transfer, plus how many it has written by then, modulo 2^32.
pub fn numbers_its_transfers()
    ensures { NumbersItsTransfers }
{}

#[tactic(auto, using(crate::proofs::Counts::reports_what_it_heard, crate::proofs::Counts::reports_no_more))]
/// Whatever a session goes through from its begin on, where its peer numbers its Transfers one by one: each Flow that
/// it writes names as next-incoming-id the number of the peer's first Transfer, plus how many it has read by then,
/// modulo 2^32, and no move writes a Begin; so none reports more than it has read.
pub fn reports_what_it_heard()
    ensures heard { ReportsWhatItHeard }
    ensures no_more { ReportsNoMore }
{}

/// Whatever a session goes through from its begin on, and whoever its peer is: the number of each Transfer that it
/// writes is behind where a Begin or a Flow that it has read begins to count, by less than the incoming-window in that
/// frame, modulo 2^32. A Begin, and a Flow that names no next-incoming-id, count from the first Transfer. The
/// premises: that window and the number of the first Transfer are of 32 bits.
pub fn writes_what_is_granted()
    ensures { WritesWhatIsGranted }
{}

/// Of two sessions, each from its begin on, one has never written more Transfers than the other has read and the
/// incoming window with which that one was built; and none before it has read a Begin. The premises: the number of the
/// first Transfer has 32 bits; and each has read a front of what the other has written. Where this is known of the last
/// moment alone (`within`), so is that the Transfers that are read, and the window, are fewer than 2^32. Where it is
/// known of each moment (`for_ever`), numbers may go round.
pub fn keeps_the_window()
    ensures within { KeepsTheWindow }
    ensures for_ever { KeepsTheWindowForEver }
    ensures first { WaitsForTheBegin }
{}

/// Whatever a session goes through from its begin on, and whoever its peer is: where each Begin and each Flow that it
/// reads announces one window, and no Flow reports more than so many Transfers, it has written no more than those and
/// that window. The premises: the number of the first Transfer has 32 bits, and those with the window are fewer than
/// 2^32.
pub fn keeps_what_it_hears()
    ensures { KeepsWhatItHears }
{}

/// There are two sessions that meet these premises: one fills the window of the other, waits while it is full, and
/// writes again once the other has reported what it has read; the bounds are reached, and the numbers go round.
pub fn window_is_met()
    ensures { WindowIsMet }
{}
