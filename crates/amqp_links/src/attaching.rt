//! How links are attached by calls (OASIS AMQP 1.0, part 2, section 2.6.3).
ghost use Rattle.std.specs.Prelude.{◌≡◌, OnOk, IfOk};
ghost use Rattle.amqp_links.specs.Attaching.{claimed, begun, attaching_sender, attaching_receiver, joining};
ghost use Rattle.amqp_links.specs.State.{seen, entered, at_place};
ghost use Rattle.amqp_session_links.specs.State.{awaiting_answer};

use crate::links::Links;
use amqp_composites::modes::Role;
use amqp_data::Text;
use amqp_link::AttachError;
use amqp_link_calls::CalledLink;
use amqp_link_calls::amqp_link_words::LinkReply;
use amqp_link_calls::amqp_receiver::ReceiverSettings;
use amqp_sender::SenderSettings;
use amqp_session_links::{Claim, SessionLinks};
use std::alloc::AllocError;

/// Lets settings go.
fn discard_sender(_settings: SenderSettings) {}

/// Lets settings go.
fn discard_receiver(_settings: ReceiverSettings) {}

impl Links {
    /// The session of that name is known from now on. The one error is want of memory.
    pub(crate) fn enter(&mut self, session: u64) -> Result<(), AllocError>
        ensures { OnOk result (seen self.new ≡ entered session (seen self.old)) }
    {
        match self.sessions.get(&session) {
            Some(_) => Ok(()),
            None => {
                self.sessions
                    .insert(session, SessionLinks::new(self.alloc))?;
                Ok(())
            }
        }
    }

    /// A link of that name and role gets a handle on the session. The one error is want of memory.
    pub(crate) fn claim(
        &mut self,
        session: u64,
        name: Text,
        role: Role,
        link: u64,
        handle_max: Option<u32>,
    ) -> Result<Claim, AllocError>
        ensures state { OnOk result (seen self.new ≡ (claimed session name role link handle_max (seen self.old)).state) }
        ensures answer { IfOk result (λ claim. claim ≡ (claimed session name role link handle_max (seen self.old)).answer) }
    {
        match self.sessions.get_mut(&session) {
            Some(place) => place.claim(name, role, link, handle_max),
            None => {
                drop(name);
                Ok(Claim::Refused(AttachError::SessionNotMapped))
            }
        }
    }

    /// The call of that name attaches a sender.
    pub(crate) fn attach_sender(
        &mut self,
        name: u64,
        session: u64,
        settings: SenderSettings,
        handle_max: Option<u32>,
    ) -> Result<(), AllocError>
        ensures { OnOk result (seen self.new ≡ attaching_sender name session settings handle_max (seen self.old)) }
    {
        let link_name = settings.name.try_clone(self.alloc)?;
        match self.claim(session, link_name, Role::Sender, name, handle_max)? {
            Claim::Handle(handle) => {
                let link = CalledLink::attach_sender(self.alloc, name, session, settings, handle)?;
                self.begin(name, session, link)
            }
            Claim::Refused(error) => {
                discard_sender(settings);
                self.answer(name, LinkReply::SenderAttachError(error))
            }
        }
    }

    /// The call of that name attaches a receiver.
    pub(crate) fn attach_receiver(
        &mut self,
        name: u64,
        session: u64,
        settings: ReceiverSettings,
        handle_max: Option<u32>,
    ) -> Result<(), AllocError>
        ensures { OnOk result (seen self.new ≡ attaching_receiver name session settings handle_max (seen self.old)) }
    {
        let link_name = settings.name.try_clone(self.alloc)?;
        match self.claim(session, link_name, Role::Receiver, name, handle_max)? {
            Claim::Handle(handle) => {
                let link = CalledLink::attach_receiver(
                    self.alloc, name, session, settings, handle,
                )?;
                self.begin(name, session, link)
            }
            Claim::Refused(error) => {
                discard_receiver(settings);
                self.answer(name, LinkReply::ReceiverAttachError(error))
            }
        }
    }

    /// The link stands under the name of its call, which waits for the peer's answer.
    fn begin(&mut self, name: u64, session: u64, link: CalledLink) -> Result<(), AllocError>
        ensures { OnOk result (seen self.new ≡ begun name session link (seen self.old)) }
    {
        self.endpoints.insert(name, link)?;
        self.await_answer(session, name);
        self.answer(name, LinkReply::Pending)?;
        self.take_up(name)
    }

    fn await_answer(&mut self, session: u64, link: u64)
        ensures { seen self.new ≡ at_place session (awaiting_answer link) (seen self.old) }
    {
        if let Some(place) = self.sessions.get_mut(&session) {
            place.await_answer(link);
        }
    }

    /// The link has that handle of the peer.
    pub(crate) fn join(&mut self, session: u64, remote: u32, link: u64) -> Result<(), AllocError>
        ensures { OnOk result (seen self.new ≡ joining session remote link (seen self.old)) }
    {
        match self.sessions.get_mut(&session) {
            Some(place) => place.join(remote, link),
            None => Ok(()),
        }
    }
}
