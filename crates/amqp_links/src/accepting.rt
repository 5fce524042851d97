//! How links of the peer are accepted (OASIS AMQP 1.0, part 2, section 2.6.3).
ghost use Rattle.std.specs.Prelude.{◌≡◌, is_some, OnOk, IfOk};
ghost use Rattle.amqp_link_calls.specs.Answering.{accept_answered, accept_reply};
ghost use Rattle.amqp_link_calls.specs.Called as called;
ghost use Rattle.amqp_link_calls.specs.Replies.{accept_error};
ghost use Rattle.amqp_links.specs.Accepting.{first_attach, role_and_name, early_at, heard_early, attach_accepted, first_accepted, met, waiting, accepting};
ghost use Rattle.amqp_links.specs.Hearing.{is_detach, other_role};
ghost use Rattle.amqp_links.specs.State.{seen, place_of, at_place};
ghost use Rattle.amqp_session_links.specs.Incoming.{attach_taken, early_taken, early_put};

use crate::links::Links;
use amqp_composites::modes::Role;
use amqp_data::Text;
use amqp_link::AttachError;
use amqp_link_calls::CalledLink;
use amqp_link_calls::amqp_link_words::{AcceptError, LinkReply};
use amqp_performatives::attach::Attach;
use amqp_session_links::amqp_session::LinkInput;
use amqp_session_links::{Claim, InputQueue, WaitingAccept};
use std::alloc::{AllocError, Global};

/// Lets a call go.
fn discard_accept(_accept: WaitingAccept) {}

/// The role that answers that one.
pub(crate) fn other_role(role: Role) -> Role
    ensures { result ≡ other_role role }
{
    match role {
        Role::Sender => Role::Receiver,
        Role::Receiver => Role::Sender,
    }
}

/// How an accept is answered that gets no handle for this end in that role.
fn accept_error(role: Role, error: AttachError) -> LinkReply
    ensures { result ≡ accept_error role error }
{
    match role {
        Role::Sender => LinkReply::AcceptError(AcceptError::LocalSender(error)),
        Role::Receiver => LinkReply::AcceptError(AcceptError::LocalReceiver(error)),
    }
}

/// The link that answers an Attach of the peer, and how its call is answered.
fn accepted_link(
    alloc: Global,
    session: u64,
    accept: WaitingAccept,
    handle: u32,
    attach: Attach,
) -> Result<(CalledLink, LinkReply), AllocError>
    ensures link { IfOk result (λ r. r.0 ≡ accept_answered (called.accepted session accept.settings accept.credit_mode accept.auto_accept handle attach)) }
    ensures reply { IfOk result (λ r. r.1 ≡ accept_reply (called.accepted session accept.settings accept.credit_mode accept.auto_accept handle attach)) }
{
    let (settings, credit_mode, auto_accept) = accept.into_parts();
    let mut link = CalledLink::accept(
        alloc,
        session,
        settings,
        credit_mode,
        auto_accept,
        handle,
        attach,
    )?;
    let reply = link.accepted()?;
    Ok((link, reply))
}

/// Whether it is a Detach.
pub(crate) fn is_detach(input: &LinkInput) -> bool
    ensures { result ≡ is_detach input.now }
{
    matches!(input, LinkInput::Detach(_))
}

impl Links {
    /// Whether an Attach waits on the session.
    fn has_attach(&self, session: u64) -> bool
        ensures { result ≡ is_some (first_attach session (seen self.now)) }
    {
        match self.sessions.get(&session) {
            Some(place) => place.first_attach().is_some(),
            None => false,
        }
    }

    /// A call accepts the first link that the peer has attached on the session and that waits, or waits for the next.
    pub(crate) fn accept(&mut self, session: u64, accept: WaitingAccept) -> Result<(), AllocError>
        ensures { OnOk result (seen self.new ≡ accepting session accept (seen self.old)) }
    {
        if self.has_attach(session) {
            self.meet(session, accept)
        } else {
            self.await_attach(session, accept)
        }
    }

    /// The call waits for an Attach.
    fn await_attach(&mut self, session: u64, accept: WaitingAccept) -> Result<(), AllocError>
        ensures { OnOk result (seen self.new ≡ waiting session accept (seen self.old)) }
    {
        let name = accept.name;
        match self.sessions.get_mut(&session) {
            Some(place) => place.await_attach(accept),
            None => discard_accept(accept),
        }
        self.answer(name, LinkReply::Pending)
    }

    /// The role of this end on the first link that waits, and a copy of its name.
    fn first_attach(&self, session: u64) -> Result<Option<(Role, Text)>, AllocError>
        ensures { IfOk result (λ found. found ≡ role_and_name (first_attach session (seen self.now))) }
    {
        let Some(place) = self.sessions.get(&session) else {
            return Ok(None);
        };
        match place.first_attach() {
            Some(attach) => {
                let name = attach.name.try_clone(self.alloc)?;
                Ok(Some((other_role(attach.role), name)))
            }
            None => Ok(None),
        }
    }

    /// The call meets the first Attach that waits; where the link gets no handle the Attach waits still.
    pub(crate) fn meet(&mut self, session: u64, accept: WaitingAccept) -> Result<(), AllocError>
        ensures { OnOk result (seen self.new ≡ met session accept (seen self.old)) }
    {
        let Some((role, link_name)) = self.first_attach(session)? else {
            discard_accept(accept);
            return Ok(());
        };
        let name = accept.name;
        match self.claim(session, link_name, role, name, accept.handle_max)? {
            Claim::Handle(handle) => self.accept_first(session, accept, handle),
            Claim::Refused(error) => {
                discard_accept(accept);
                self.answer(name, accept_error(role, error))
            }
        }
    }

    fn take_attach(&mut self, session: u64) -> Option<Attach>
        ensures attach { result ≡ first_attach session (seen self.old) }
        ensures state { seen self.new ≡ at_place session attach_taken (seen self.old) }
    {
        let place = self.sessions.get_mut(&session)?;
        place.take_attach()
    }

    /// The call takes the first Attach that waits.
    fn accept_first(
        &mut self,
        session: u64,
        accept: WaitingAccept,
        handle: u32,
    ) -> Result<(), AllocError>
        ensures { OnOk result (seen self.new ≡ first_accepted session accept handle (seen self.old)) }
    {
        match self.take_attach(session) {
            Some(attach) => self.accept_attach(session, accept, handle, attach),
            None => {
                discard_accept(accept);
                Ok(())
            }
        }
    }

    /// The link that answers the Attach stands under the name of its call, and hears what was read behind the Attach.
    fn accept_attach(
        &mut self,
        session: u64,
        accept: WaitingAccept,
        handle: u32,
        attach: Attach,
    ) -> Result<(), AllocError>
        ensures { OnOk result (seen self.new ≡ attach_accepted session accept handle attach (seen self.old)) }
    {
        let name = accept.name;
        let remote = attach.handle;
        let (link, reply) = accepted_link(self.alloc, session, accept, handle, attach)?;
        self.endpoints.insert(name, link)?;
        self.join(session, remote, name)?;
        self.answer(name, reply)?;
        self.take_up(name)?;
        let queue = self.take_early(session, remote);
        self.hear_early(session, name, remote, queue)
    }

    fn take_early(&mut self, session: u64, remote: u32) -> InputQueue
        ensures queue { result ≡ early_at remote (place_of session (seen self.old)) }
        ensures state { seen self.new ≡ at_place session (early_taken remote) (seen self.old) }
    {
        match self.sessions.get_mut(&session) {
            Some(place) => place.take_early(remote),
            None => InputQueue::new(self.alloc),
        }
    }

    fn put_early(&mut self, session: u64, remote: u32, queue: InputQueue) -> Result<(), AllocError>
        ensures { OnOk result (seen self.new ≡ at_place session (early_put remote queue) (seen self.old)) }
    {
        match self.sessions.get_mut(&session) {
            Some(place) => place.put_early(remote, queue),
            None => {
                drop(queue);
                Ok(())
            }
        }
    }

    /// The link hears what was read behind its Attach, up to its Detach: what came later is of another link.
    fn hear_early(
        &mut self,
        session: u64,
        link: u64,
        remote: u32,
        queue: InputQueue,
    ) -> Result<(), AllocError>
        ensures { OnOk result (seen self.new ≡ heard_early session link remote queue (seen self.old)) }
    {
        let mut queue = queue;
        while let Some(input) = queue.pop() {
            let is_last = is_detach(&input);
            self.hear(session, link, remote, input)?;
            if is_last {
                return self.put_early(session, remote, queue);
            }
        }
        Ok(())
    }
}
