//! Links that can be waited for.
ghost use Rattle.std.specs.Prelude.{◌≡◌, ◌<◌, false, IfSome, IfNone};
ghost use Rattle.amqp_wire.specs.Link.{HasCause};

use amqp_wire::link::Link;
use amqp_wire::pipe::Pipe;

/// In which direction a link has failed.
#[derive(Clone, Copy, Debug, PartialEq, Eq)]
pub enum LinkFault {
    /// A read failed, or found the end of the input.
    Reading,
    /// A write or a wait failed.
    Writing,
}

/// A link whose caller can wait until it gives or takes more.
pub trait WaitLink: Link {
    /// Waits until a read may give bytes or find the end, or a write may take some; it may return with neither. A no says that nothing
    /// can be waited for, and comes only where the count of faults rose. No byte moves; bytes that were still to come may be there then.
    fn wait(&mut self) -> bool
        ensures cause { HasCause (Self.faults self.old) (Self.faults self.new) (result ≡ false) }
        ensures input { Self.input self.new ≡ Self.input self.old }
        ensures output { Self.output self.new ≡ Self.output self.old }
        ensures mark { Self.mark self.new ≡ Self.mark self.old };

    /// How many reads have given bytes, up to the last value of a `u64`. A link that is given bytes by its caller alone need not count
    /// them.
    fn reads(&self) -> u64;

    /// The first fault of the link: it has one exactly where its count is above 0.
    fn fault(&self) -> Option<LinkFault>
        ensures some { IfSome result (λ _. 0 < Self.faults self.now) }
        ensures none { IfNone result (Self.faults self.now ≡ 0) };
}

impl WaitLink for Pipe {
    /// A pipe takes at all times, and is given bytes by its caller alone: there is nothing to wait for.
    fn wait(&mut self) -> bool {
        true
    }

    fn reads(&self) -> u64 {
        0
    }

    fn fault(&self) -> Option<LinkFault> {
        None
    }
}
