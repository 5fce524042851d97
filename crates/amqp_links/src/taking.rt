//! What has become of a link: what it has to write, the answers of calls that have waited, and its handle once it is over (OASIS AMQP
//! 1.0, part 2, sections 2.6.3 and 2.6.6).
ghost use Rattle.std.specs.Prelude.{◌≡◌, ◌++◌, map, OnOk, IfOk};
ghost use Rattle.amqp_links.specs.Parts.{Frame, output_of, emptied};
ghost use Rattle.amqp_links.specs.State.{seen, place_of, link_of, at_place};
ghost use Rattle.amqp_links.specs.Taking.{written, told, attaching_at, told_on, attach_told, spent_by, freed, reclaimed, given_at, refused_at, placed, reattached, taken_up};
ghost use Rattle.amqp_session_links.specs.Claims.{is_at, released};
ghost use Rattle.amqp_session_links.specs.State.{attach_ended};

use crate::links::Links;
use crate::output::{LinksOutput, OutputQueue};
use amqp_composites::modes::Role;
use amqp_data::Text;
use amqp_link::AttachError;
use amqp_link_calls::CalledLink;
use amqp_session_links::Claim;
use std::alloc::AllocError;

/// Has what a link has to write written behind that.
fn write_out(link: &mut CalledLink, output: &mut OutputQueue) -> Result<(), AllocError>
    ensures link { OnOk result (link.new ≡ emptied link.old) }
    ensures output { OnOk result (output.new ≡ output.old ++ map (Frame link.old.session) (output_of link.old)) }
{
    let session = link.session();
    while let Some(frame) = link.take_output() {
        output.push(LinksOutput::Frame(session, frame))?;
    }
    Ok(())
}

/// Whether a place is that link's.
fn is_at(place: Option<u64>, link: u64) -> bool
    ensures { result ≡ is_at place link }
{
    match place {
        Some(other) => other == link,
        None => false,
    }
}

impl Links {
    /// Takes up what has become of a link. The one error is want of memory.
    pub(crate) fn take_up(&mut self, link: u64) -> Result<(), AllocError>
        ensures { OnOk result (seen self.new ≡ taken_up link (seen self.old)) }
    {
        self.write_out(link)?;
        self.tell(link)?;
        self.tell_attach(link)?;
        self.free(link);
        self.reattach(link)
    }

    /// What the link has to write goes behind what is to be done.
    fn write_out(&mut self, link: u64) -> Result<(), AllocError>
        ensures { OnOk result (seen self.new ≡ written link (seen self.old)) }
    {
        match self.endpoints.get_mut(&link) {
            Some(endpoint) => write_out(endpoint, &mut self.output),
            None => Ok(()),
        }
    }

    /// The calls that have waited at the link are answered.
    fn tell(&mut self, link: u64) -> Result<(), AllocError>
        ensures { OnOk result (seen self.new ≡ told link (seen self.old)) }
    {
        let Some(endpoint) = self.endpoints.get_mut(&link) else {
            return Ok(());
        };
        let answers = endpoint.take_answers();
        self.answer_all(answers)
    }

    /// Whether the session takes the attach of that link for waiting.
    fn is_attaching(&self, session: u64, link: u64) -> bool
        ensures { result ≡ attaching_at (place_of session (seen self.now)) link }
    {
        match self.sessions.get(&session) {
            Some(place) => is_at(place.attaching(), link),
            None => false,
        }
    }

    /// The session on which the attach of the link has waited and was answered, if it was.
    fn told_session(&self, link: u64) -> Option<u64>
        ensures { result ≡ told_on link (seen self.now) }
    {
        let endpoint = self.endpoints.get(&link)?;
        let session = endpoint.session();
        if endpoint.attaching().is_none() && self.is_attaching(session, link) {
            Some(session)
        } else {
            None
        }
    }

    /// Where the attach of the link was answered its session waits no more, and where it failed the name is spent.
    pub(crate) fn tell_attach(&mut self, link: u64) -> Result<(), AllocError>
        ensures { OnOk result (seen self.new ≡ attach_told link (seen self.old)) }
    {
        match self.told_session(link) {
            Some(session) => {
                self.end_attach(session);
                self.spend_unless_made(session, link)
            }
            None => Ok(()),
        }
    }

    /// No attach waits on the session.
    fn end_attach(&mut self, session: u64)
        ensures { seen self.new ≡ at_place session attach_ended (seen self.old) }
    {
        if let Some(place) = self.sessions.get_mut(&session) {
            place.end_attach();
        }
    }

    /// Where the link was not made its name may not be used again.
    fn spend_unless_made(&mut self, session: u64, link: u64) -> Result<(), AllocError>
        ensures { OnOk result (seen self.new ≡ spent_by session link (seen self.old)) }
    {
        let Some(endpoint) = self.endpoints.get(&link) else {
            return Ok(());
        };
        if endpoint.is_made() {
            return Ok(());
        }
        let name = endpoint.name().try_clone(self.alloc)?;
        match self.sessions.get_mut(&session) {
            Some(place) => place.spend(name),
            None => {
                drop(name);
                Ok(())
            }
        }
    }

    /// A link that is over gives its handle back.
    fn free(&mut self, link: u64)
        ensures { seen self.new ≡ freed link (seen self.old) }
    {
        let Some(endpoint) = self.endpoints.get(&link) else {
            return;
        };
        if endpoint.is_over() {
            let session = endpoint.session();
            let handle = endpoint.handle();
            self.release(session, handle, link);
        }
    }

    fn release(&mut self, session: u64, handle: u32, link: u64)
        ensures { seen self.new ≡ at_place session (released handle link) (seen self.old) }
    {
        if let Some(place) = self.sessions.get_mut(&session) {
            place.release(handle, link);
        }
    }

    /// A link that is to be closed on a further attachment is attached again.
    fn reattach(&mut self, link: u64) -> Result<(), AllocError>
        ensures { OnOk result (seen self.new ≡ reattached link (seen self.old)) }
    {
        let Some(endpoint) = self.endpoints.get(&link) else {
            return Ok(());
        };
        if !endpoint.wants_handle() {
            return Ok(());
        }
        let session = endpoint.session();
        let role = endpoint.role();
        let name = endpoint.name().try_clone(self.alloc)?;
        self.place_again(session, name, role, link)
    }

    fn place_again(
        &mut self,
        session: u64,
        name: Text,
        role: Role,
        link: u64,
    ) -> Result<(), AllocError>
        ensures { OnOk result (seen self.new ≡ placed session name role link (seen self.old)) }
    {
        match self.reclaim(session, name, role, link)? {
            Claim::Handle(handle) => {
                self.give_handle(link, handle)?;
                self.write_out(link)
            }
            Claim::Refused(error) => {
                drop(error);
                self.refuse_handle(link)?;
                self.tell(link)
            }
        }
    }

    fn reclaim(
        &mut self,
        session: u64,
        name: Text,
        role: Role,
        link: u64,
    ) -> Result<Claim, AllocError>
        ensures state { OnOk result (seen self.new ≡ (reclaimed session name role link (seen self.old)).state) }
        ensures answer { IfOk result (λ claim. claim ≡ (reclaimed session name role link (seen self.old)).answer) }
    {
        match self.sessions.get_mut(&session) {
            Some(place) => place.reclaim(name, role, link),
            None => {
                drop(name);
                Ok(Claim::Refused(AttachError::SessionNotMapped))
            }
        }
    }

    fn give_handle(&mut self, link: u64, handle: u32) -> Result<(), AllocError>
        ensures { OnOk result (seen self.new ≡ given_at (link_of link (seen self.old)) handle link (seen self.old)) }
    {
        match self.endpoints.get_mut(&link) {
            Some(endpoint) => endpoint.give_handle(handle),
            None => Ok(()),
        }
    }

    fn refuse_handle(&mut self, link: u64) -> Result<(), AllocError>
        ensures { OnOk result (seen self.new ≡ refused_at (link_of link (seen self.old)) link (seen self.old)) }
    {
        match self.endpoints.get_mut(&link) {
            Some(endpoint) => endpoint.refuse_handle(),
            None => Ok(()),
        }
    }
}
