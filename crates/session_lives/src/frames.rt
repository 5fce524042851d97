//! Sessions and the channels that lead to them (OASIS AMQP 1.0, part 2, sections 2.2, 2.5.1 and 2.5.4).
ghost use Rattle.session_lives.specs.Channels.{SpeaksOnItsOwn};
ghost use Rattle.session_lives.specs.Fronts.{HearsTheFirst};
ghost use Rattle.session_lives.specs.Sound.{NoneIsSound, SoundIsKept, HearsItsOwn};

/// Whatever a session goes through, it stays on its channel, and writes on no other.
pub fn speaks_on_its_own()
    ensures { SpeaksOnItsOwn }
{}

/// Where no session was begun the tables of sessions agree with the sessions: no two have one name, and a channel
/// leads to a session that is on it. Whatever the sessions of an end do keeps that, where each that is made has a
/// name of its own.
pub fn tables_agree()
    ensures none { NoneIsSound }
    ensures kept { SoundIsKept }
{}

/// Where they agree, each frame that a session hears is on the channel of the peer's Begin, or is a Begin that
/// answers its own.
pub fn hears_its_own()
    ensures { HearsItsOwn }
{}

/// A session that the peer has begun on a channel hears the first of the frames that are read on it from then on,
/// each once and in order, but for Begins that answer one. It hears no more of them once the channel leads to it no
/// more.
pub fn hears_the_first()
    ensures { HearsTheFirst }
{}
