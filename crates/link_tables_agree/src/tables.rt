//! Links and the handles that lead to them.
ghost use Rattle.link_tables_agree.specs.Apart.{SendsApart};
ghost use Rattle.link_tables_agree.specs.Leads.{LeadsOn};
ghost use Rattle.link_tables_agree.specs.Names.{UnusedStays, NamesAreNew};
ghost use Rattle.link_tables_agree.specs.Sound.{NoneIsSound, SoundIsKept, StandsFree, HoldsAlone};

/// Where there are no links their tables agree with them: no two have one name, a handle of this end leads to a link
/// that is of that session and has that handle, and to each link its handle leads until both ends have sent their
/// Detach. Whatever the links of an end do keeps that, where each call that makes a link has a name of its own.
pub fn tables_agree()
    ensures none { NoneIsSound }
    ensures kept { SoundIsKept }
{}

/// Where they agree no link that stands has the name of a call that waits for an Attach.
pub fn stands_free()
    ensures { StandsFree }
{}

/// Nor do two links that both ends have not detached have one handle on a session.
pub fn holds_alone()
    ensures { HoldsAlone }
{}

/// A name that is not used stays so as long as no call has it. So each call that makes a link has a name of its own
/// where no two calls have one.
pub fn names_are_new()
    ensures stays { UnusedStays }
    ensures once { NamesAreNew }
{}

/// Where the tables agree a sender goes through a life, in which no other link of its session writes a Transfer on
/// its handle until both ends have sent their Detach.
pub fn sends_apart()
    ensures { SendsApart }
{}

/// And a handle of the peer that leads to a link, as no other does, leads to it still, as long as the peer neither
/// detaches the link nor attaches it, or another on that handle, again.
pub fn leads_on()
    ensures { LeadsOn }
{}
