//! Which sessions of two ends pair (OASIS AMQP 1.0, part 2, section 2.5.1).
ghost use Rattle.std.specs.Prelude.{◌≡◌, nat_eq, OnOk};
ghost use Rattle.std.specs.Map.{lookup};
ghost use Rattle.amqp_session_world.specs.Paired.{seen, none_paired, is_begun, accepted_if, all_accepted, paired_with, begun_if, all_begun, paired_by, is_spent_there, spares_for, spares_in, spares};

use amqp_data::Text;
use amqp_end::End;
use amqp_end::amqp_calls::{Act, Call, LinkCall, NamedReply, Reply, SessionReply};
use amqp_wire::pipe::Pipe;
use amqp_words::End as Side;
use indexmap::IndexMap;
use std::alloc::{AllocError, Global};

/// The sessions of which two ends were told, by the names of their calls.
#[derive(Drop)]
pub struct SessionPairs {
    /// The last of the listener's.
    last: Option<u64>,
    /// The listener's that pairs with each of the client's.
    pairs: IndexMap<u64, u64>,
}

/// Whether an answer says that a session is begun at both ends.
fn is_begun(reply: &Reply) -> bool
    ensures { result ≡ is_begun reply.now }
{
    matches!(reply, Reply::Session(SessionReply::Session))
}

impl SessionPairs {
    /// No session was begun.
    pub(crate) fn new(alloc: Global) -> Self
        ensures { seen result ≡ none_paired }
    {
        SessionPairs {
            last: None,
            pairs: IndexMap::new(alloc),
        }
    }

    fn accept_if(&mut self, is_begun: bool, name: u64)
        ensures { seen self.new ≡ accepted_if is_begun name (seen self.old) }
    {
        if is_begun {
            self.last = Some(name);
        }
    }

    /// What the listener was told.
    fn accept_all(&mut self, replies: &[NamedReply])
        ensures { seen self.new ≡ all_accepted replies.now (seen self.old) }
    {
        for answer in replies {
            self.accept_if(is_begun(&answer.reply), answer.name);
        }
    }

    /// A session of the client pairs with the last of the listener's.
    fn pair(&mut self, name: u64) -> Result<(), AllocError>
        ensures { OnOk result (seen self.new ≡ paired_with (seen self.old).last name (seen self.old)) }
    {
        match self.last {
            Some(other) => {
                self.pairs.insert(name, other)?;
                Ok(())
            }
            None => Ok(()),
        }
    }

    fn begin_if(&mut self, is_begun: bool, name: u64) -> Result<(), AllocError>
        ensures { OnOk result (seen self.new ≡ begun_if is_begun name (seen self.old)) }
    {
        if is_begun {
            return self.pair(name);
        }
        Ok(())
    }

    /// What the client was told.
    fn begin_all(&mut self, replies: &[NamedReply]) -> Result<(), AllocError>
        ensures { OnOk result (seen self.new ≡ all_begun replies.now (seen self.old)) }
    {
        for answer in replies {
            self.begin_if(is_begun(&answer.reply), answer.name)?;
        }
        Ok(())
    }

    /// What that end was told in a step.
    pub(crate) fn note(&mut self, side: Side, replies: &[NamedReply]) -> Result<(), AllocError>
        ensures { OnOk result (seen self.new ≡ paired_by side replies.now (seen self.old)) }
    {
        match side {
            Side::Client => self.begin_all(replies),
            Side::Listener => {
                self.accept_all(replies);
                Ok(())
            }
        }
    }

    fn is_spent_there(&self, far: &End<Pipe>, session: u64, name: &Text) -> bool
        ensures { result ≡ is_spent_there session name.now (seen self.now) far.now }
    {
        match self.pairs.get(&session) {
            Some(there) => far.is_spent(*there, name),
            None => false,
        }
    }

    fn spares_for(&self, far: &End<Pipe>, call: &LinkCall) -> bool
        ensures { result ≡ spares_for (seen self.now) far.now call.now }
    {
        match call {
            LinkCall::Sender { session, settings } => {
                !self.is_spent_there(far, *session, &settings.name)
            }
            LinkCall::Receiver { session, settings } => {
                !self.is_spent_there(far, *session, &settings.name)
            }
            _ => true,
        }
    }

    fn spares_in(&self, far: &End<Pipe>, call: &Call) -> bool
        ensures { result ≡ spares_in (seen self.now) far.now call.now }
    {
        match call {
            Call::Link(call) => self.spares_for(far, call),
            Call::Connection(_) | Call::Session(_) => true,
        }
    }

    /// Whether an act of the client is no attach, or takes a name that the listener has not used up on the session that pairs with its own.
    pub(crate) fn spares(&self, far: &End<Pipe>, act: &Act) -> bool
        ensures { result ≡ spares (seen self.now) far.now act.now }
    {
        match act {
            Act::Call(call) => self.spares_in(far, call),
            Act::Take(_) | Act::TakeAll => true,
        }
    }
}
