//! The end of a session, as its links see it (OASIS AMQP 1.0, part 2, sections 2.5.4 and 2.6.5).
ghost use Rattle.std.specs.Prelude.{◌≡◌, OnOk, IfOk};
ghost use Rattle.amqp_links.specs.State.{seen, place_of, link_of, at_place};
ghost use Rattle.amqp_links.specs.Stops.{links_at, stopped_at, all_stopped, session_stopped, concluded_at, all_concluded, session_over};
ghost use Rattle.amqp_session_links.specs.State.{stopped};

use crate::links::Links;
use amqp_frames::SessionStopReason;
use amqp_link::copied_reason;
use std::alloc::AllocError;

impl Links {
    /// The names of the links of a session.
    fn links_of(&self, session: u64) -> Result<Vec<u64>, AllocError>
        ensures { IfOk result (λ links. links.items ≡ links_at (place_of session (seen self.now))) }
    {
        match self.sessions.get(&session) {
            Some(place) => place.links(),
            None => Ok(Vec::new(self.alloc)),
        }
    }

    /// The session has stopped: its links take no more calls.
    pub(crate) fn on_stopped(
        &mut self,
        session: u64,
        reason: SessionStopReason,
    ) -> Result<(), AllocError>
        ensures { OnOk result (seen self.new ≡ session_stopped session reason (seen self.old)) }
    {
        let links = self.links_of(session)?;
        self.stop_links(&links, &reason)?;
        self.stop(session, reason);
        Ok(())
    }

    fn stop(&mut self, session: u64, reason: SessionStopReason)
        ensures { seen self.new ≡ at_place session (stopped reason) (seen self.old) }
    {
        match self.sessions.get_mut(&session) {
            Some(place) => place.stop(reason),
            None => drop(reason),
        }
    }

    fn stop_links(&mut self, links: &[u64], reason: &SessionStopReason) -> Result<(), AllocError>
        ensures { OnOk result (seen self.new ≡ all_stopped links.now reason.now (seen self.old)) }
    {
        for link in links {
            self.stop_link(*link, reason)?;
        }
        Ok(())
    }

    fn stop_link(&mut self, link: u64, reason: &SessionStopReason) -> Result<(), AllocError>
        ensures { OnOk result (seen self.new ≡ stopped_at (link_of link (seen self.old)) link reason.now (seen self.old)) }
    {
        let reason = copied_reason(self.alloc, reason)?;
        let Some(endpoint) = self.endpoints.get_mut(&link) else {
            drop(reason);
            return Ok(());
        };
        endpoint.stop(reason);
        self.try_again(link, true)
    }

    /// Nothing more comes of the session: each call that waits at its links is answered. An accept goes on waiting.
    pub(crate) fn on_over(&mut self, session: u64) -> Result<(), AllocError>
        ensures { OnOk result (seen self.new ≡ session_over session (seen self.old)) }
    {
        let links = self.links_of(session)?;
        self.conclude_links(&links)
    }

    fn conclude_links(&mut self, links: &[u64]) -> Result<(), AllocError>
        ensures { OnOk result (seen self.new ≡ all_concluded links.now (seen self.old)) }
    {
        for link in links {
            self.conclude_link(*link)?;
        }
        Ok(())
    }

    fn conclude_link(&mut self, link: u64) -> Result<(), AllocError>
        ensures { OnOk result (seen self.new ≡ concluded_at (link_of link (seen self.old)) link (seen self.old)) }
    {
        let Some(endpoint) = self.endpoints.get_mut(&link) else {
            return Ok(());
        };
        let answers = endpoint.conclude()?;
        self.answer_all(answers)?;
        self.tell_attach(link)
    }
}
