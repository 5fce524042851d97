//! What sessions hand to their links (OASIS AMQP 1.0, part 2, sections 2.6 and 2.7).
ghost use Rattle.std.specs.Prelude.{◌≡◌, OnOk};
ghost use Rattle.amqp_links.specs.Accepting.{accept_of, waiting_met, reattaching_as, awaiting, attach_for, attach_came};
ghost use Rattle.amqp_links.specs.Hearing.{is_detach, parting, hearing_at, hearing, link_from_at, frame_read, attach_heard_at, attach_heard, answered_at, answer_read};
ghost use Rattle.amqp_links.specs.Inputs.{handle_of, word_read, input_read};
ghost use Rattle.amqp_links.specs.Parts.{heard};
ghost use Rattle.amqp_links.specs.State.{seen, place_of, link_of, at_place};
ghost use Rattle.amqp_session_links.specs.Incoming.{kept, attach_pushed};
ghost use Rattle.amqp_session_links.specs.State.{accept_taken};

use crate::accepting::{is_detach, other_role};
use crate::links::Links;
use crate::output::LinksOutput;
use amqp_link_calls::CalledLink;
use amqp_performatives::attach::Attach;
use amqp_session_links::WaitingAccept;
use amqp_session_links::amqp_session::LinkInput;
use std::alloc::AllocError;

/// Lets an input go.
fn discard(_input: LinkInput) {}

/// A link hears a frame.
fn hear_frame(link: &mut CalledLink, input: LinkInput) -> Result<(), AllocError>
    ensures { OnOk result (link.new ≡ heard input link.old) }
{
    match input {
        LinkInput::Flow(flow) => link.on_flow(&flow),
        LinkInput::Transfer(transfer, payload) => link.on_transfer(transfer, payload),
        LinkInput::Detach(detach) => link.on_detach(detach),
        other => {
            discard(other);
            Ok(())
        }
    }
}

/// Lets an Attach go.
fn discard_attach(_attach: Attach) {}

/// The handle of the peer on which a frame was read; none for other inputs, an Attach among them.
fn handle_of(input: &LinkInput) -> Option<u32>
    ensures { result ≡ handle_of input.now }
{
    match input {
        LinkInput::Flow(flow) => flow.handle,
        LinkInput::Transfer(transfer, _) => Some(transfer.handle),
        LinkInput::Detach(detach) => Some(detach.handle),
        LinkInput::Attach(_)
        | LinkInput::Disposition(_)
        | LinkInput::Left(_)
        | LinkInput::Stopped(_)
        | LinkInput::Over => None,
    }
}

impl Links {
    /// The session of that name has handed something to its links: what follows of it is done. The one error is want of memory.
    pub fn on_input(&mut self, session: u64, input: LinkInput) -> Result<(), AllocError>
        ensures { OnOk result (seen self.new ≡ input_read session input (seen self.old)) }
    {
        self.enter(session)?;
        match handle_of(&input) {
            Some(remote) => self.on_frame(session, remote, input),
            None => self.on_word(session, input),
        }
    }

    fn on_word(&mut self, session: u64, input: LinkInput) -> Result<(), AllocError>
        ensures { OnOk result (seen self.new ≡ word_read session input (seen self.old)) }
    {
        match input {
            LinkInput::Attach(attach) => self.on_attach(session, attach),
            LinkInput::Disposition(disposition) => self.on_disposition(session, disposition),
            LinkInput::Left(left) => self.on_left(session, left),
            LinkInput::Stopped(reason) => self.on_stopped(session, reason),
            LinkInput::Over => self.on_over(session),
            other => {
                discard(other);
                Ok(())
            }
        }
    }

    /// A frame was read on that handle of the peer: its link hears it, and where there is none it is kept.
    fn on_frame(&mut self, session: u64, remote: u32, input: LinkInput) -> Result<(), AllocError>
        ensures { OnOk result (seen self.new ≡ frame_read session remote input (seen self.old)) }
    {
        match self.link_from(session, remote) {
            Some(link) => self.hear(session, link, remote, input),
            None => self.keep(session, remote, input),
        }
    }

    /// The link of that handle of the peer.
    fn link_from(&self, session: u64, remote: u32) -> Option<u64>
        ensures { result ≡ link_from_at remote (place_of session (seen self.now)) }
    {
        let place = self.sessions.get(&session)?;
        place.link_from(remote)
    }

    fn keep(&mut self, session: u64, remote: u32, input: LinkInput) -> Result<(), AllocError>
        ensures { OnOk result (seen self.new ≡ at_place session (kept remote input) (seen self.old)) }
    {
        match self.sessions.get_mut(&session) {
            Some(place) => place.keep(remote, input),
            None => {
                discard(input);
                Ok(())
            }
        }
    }

    /// The link hears a frame; a Detach makes the handle of the peer free. A message that has waited for credit is tried again.
    pub(crate) fn hear(
        &mut self,
        session: u64,
        link: u64,
        remote: u32,
        input: LinkInput,
    ) -> Result<(), AllocError>
        ensures { OnOk result (seen self.new ≡ hearing session link remote input (seen self.old)) }
    {
        let is_detach = is_detach(&input);
        self.part_if(is_detach, session, remote);
        self.number(session, link, &input)?;
        self.hear_at(link, input)?;
        self.try_again(link, is_detach)?;
        self.take_up(link)
    }

    fn hear_at(&mut self, link: u64, input: LinkInput) -> Result<(), AllocError>
        ensures { OnOk result (seen self.new ≡ hearing_at (link_of link (seen self.old)) link input (seen self.old)) }
    {
        match self.endpoints.get_mut(&link) {
            Some(endpoint) => hear_frame(endpoint, input),
            None => {
                discard(input);
                Ok(())
            }
        }
    }

    fn part_if(&mut self, is_detach: bool, session: u64, remote: u32)
        ensures { seen self.new ≡ parting is_detach session remote (seen self.old) }
    {
        if !is_detach {
            return;
        }
        if let Some(place) = self.sessions.get_mut(&session) {
            place.part(remote);
        }
    }

    /// An Attach of the peer was read: an end that accepts lets it wait for a call, the other has attached the link itself.
    fn on_attach(&mut self, session: u64, attach: Attach) -> Result<(), AllocError>
        ensures { OnOk result (seen self.new ≡ attach_came (seen self.old).accepts session attach (seen self.old)) }
    {
        if self.accepts {
            self.on_peer_attach(session, attach)
        } else {
            self.on_answer(session, attach)
        }
    }

    /// The link, if this end has attached it again and awaits the peer's Attach.
    fn reattaching(&self, link: u64) -> Option<u64>
        ensures { result ≡ reattaching_as link (link_of link (seen self.now)) }
    {
        let endpoint = self.endpoints.get(&link)?;
        if endpoint.is_reattaching() {
            Some(link)
        } else {
            None
        }
    }

    /// The link of this end that was attached again and awaits that Attach.
    fn awaiting(&self, session: u64, attach: &Attach) -> Option<u64>
        ensures { result ≡ awaiting session attach.now (seen self.now) }
    {
        let link = self.answered_link(session, attach)?;
        self.reattaching(link)
    }

    /// An Attach was read at an end that accepts: a link that was attached again hears it, else it waits for a call.
    fn on_peer_attach(&mut self, session: u64, attach: Attach) -> Result<(), AllocError>
        ensures { OnOk result (seen self.new ≡ attach_for (awaiting session attach (seen self.old)) session attach (seen self.old)) }
    {
        match self.awaiting(session, &attach) {
            Some(link) => self.hear_attach(session, link, attach),
            None => {
                self.push_attach(session, attach)?;
                self.accept_waiting(session)
            }
        }
    }

    fn push_attach(&mut self, session: u64, attach: Attach) -> Result<(), AllocError>
        ensures { OnOk result (seen self.new ≡ at_place session (attach_pushed attach) (seen self.old)) }
    {
        match self.sessions.get_mut(&session) {
            Some(place) => place.push_attach(attach),
            None => {
                discard_attach(attach);
                Ok(())
            }
        }
    }

    fn take_accept(&mut self, session: u64) -> Option<WaitingAccept>
        ensures accept { result ≡ accept_of (place_of session (seen self.old)) }
        ensures state { seen self.new ≡ at_place session accept_taken (seen self.old) }
    {
        let place = self.sessions.get_mut(&session)?;
        place.take_accept()
    }

    /// The call that waits for an Attach takes it.
    fn accept_waiting(&mut self, session: u64) -> Result<(), AllocError>
        ensures { OnOk result (seen self.new ≡ waiting_met session (seen self.old)) }
    {
        match self.take_accept(session) {
            Some(accept) => self.meet(session, accept),
            None => Ok(()),
        }
    }

    /// The link of this end that the Attach answers: of the same name, in the other role.
    fn answered_link(&self, session: u64, attach: &Attach) -> Option<u64>
        ensures { result ≡ answered_at attach.now (place_of session (seen self.now)) }
    {
        let place = self.sessions.get(&session)?;
        place.link_named(&attach.name, other_role(attach.role))
    }

    /// The peer has answered the Attach of a link, or has attached one that nobody awaits.
    fn on_answer(&mut self, session: u64, attach: Attach) -> Result<(), AllocError>
        ensures { OnOk result (seen self.new ≡ answer_read session attach (seen self.old)) }
    {
        match self.answered_link(session, &attach) {
            Some(link) => self.hear_attach(session, link, attach),
            None => {
                discard_attach(attach);
                self.output.push(LinksOutput::Astray(session))
            }
        }
    }

    fn hear_attach(&mut self, session: u64, link: u64, attach: Attach) -> Result<(), AllocError>
        ensures { OnOk result (seen self.new ≡ attach_heard session link attach (seen self.old)) }
    {
        self.join(session, attach.handle, link)?;
        self.hear_attach_at(link, attach)?;
        self.take_up(link)
    }

    fn hear_attach_at(&mut self, link: u64, attach: Attach) -> Result<(), AllocError>
        ensures { OnOk result (seen self.new ≡ attach_heard_at (link_of link (seen self.old)) link attach (seen self.old)) }
    {
        match self.endpoints.get_mut(&link) {
            Some(endpoint) => endpoint.on_attach(attach),
            None => {
                discard_attach(attach);
                Ok(())
            }
        }
    }
}
