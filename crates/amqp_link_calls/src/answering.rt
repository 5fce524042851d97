//! How calls that have waited at a link are answered (OASIS AMQP 1.0, part 2, sections 2.6.3 and 2.6.12).
ghost use Rattle.std.specs.Prelude.{◌≡◌, [], ◌++◌, map, IfOk, OnOk};
ghost use Rattle.amqp_link_calls.specs.Answering.{attach_told, attach_polled, attach_answered, outcome_answered, told_by, outcomes_answered, answers_taken};
ghost use Rattle.amqp_link_calls.specs.Hearing.{concluded};
ghost use Rattle.amqp_link_calls.specs.Called.{answering};

use crate::called::CalledLink;
use crate::replies::{attach_error, made_reply};
use amqp_link::{AttachError, AttachPoll};
use amqp_link_words::{LinkReply, NamedLinkReply};
use indexmap::IndexMap;
use std::alloc::AllocError;
use std::mem;

impl CalledLink {
    /// Answers a call that has waited.
    pub(crate) fn answer(&mut self, name: u64, reply: LinkReply) -> Result<(), AllocError>
        ensures { OnOk result (self.new ≡ answering name reply self.old) }
    {
        self.answers.push(NamedLinkReply { name, reply })?;
        Ok(())
    }

    /// Answers the call that attaches the link, by what is known of that.
    fn tell_attach(
        &mut self,
        news: Result<AttachPoll, AttachError>,
        name: u64,
    ) -> Result<(), AllocError>
        ensures { OnOk result (self.new ≡ attach_told news name self.old) }
    {
        let role = self.side.role();
        match news {
            Ok(AttachPoll::Pending) => Ok(()),
            Ok(AttachPoll::Done) => {
                self.attaching = None;
                self.is_made = true;
                self.answer(name, made_reply(role))
            }
            Err(error) => {
                self.attaching = None;
                self.answer(name, attach_error(role, error))
            }
        }
    }

    fn answer_attach_of(&mut self, name: u64) -> Result<(), AllocError>
        ensures { OnOk result (self.new ≡ attach_polled name self.old) }
    {
        let news = self.side.attach_news()?;
        self.tell_attach(news, name)
    }

    /// Answers the call that attaches the link, where it waits and an answer can be given.
    pub(crate) fn answer_attach(&mut self) -> Result<(), AllocError>
        ensures { OnOk result (self.new ≡ attach_answered self.old) }
    {
        match self.attaching {
            Some(name) => self.answer_attach_of(name),
            None => Ok(()),
        }
    }

    /// Answers the call that waits for the outcome of that delivery, if there is one.
    pub(crate) fn answer_outcome(&mut self, place: usize) -> Result<(), AllocError>
        ensures { OnOk result (self.new ≡ outcome_answered place self.old) }
    {
        match self.waiting.swap_remove(&place) {
            Some(name) => {
                let reply = self.side.outcome_at(place)?;
                self.answer(name, reply)
            }
            None => Ok(()),
        }
    }

    /// Answers those calls, each with the place of the delivery for whose outcome it has waited.
    fn answer_all(&mut self, calls: IndexMap<usize, u64>) -> Result<(), AllocError>
        ensures { OnOk result (self.new ≡ record self.old { answers = self.old.answers ++ map (told_by self.old.side) calls.entries }) }
    {
        let mut left = calls.into_iter();
        while let Some((place, name)) = left.next() {
            let reply = self.side.outcome_at(place)?;
            self.answer(name, reply)?;
        }
        Ok(())
    }

    /// Answers each call that waits for an outcome.
    pub(crate) fn answer_outcomes(&mut self) -> Result<(), AllocError>
        ensures { OnOk result (self.new ≡ outcomes_answered self.old) }
    {
        let calls = mem::replace(&mut self.waiting, IndexMap::new(self.alloc));
        self.answer_all(calls)
    }

    /// The answers of calls that have waited and can be answered now.
    pub fn take_answers(&mut self) -> Vec<NamedLinkReply>
        ensures answers { result.items ≡ self.old.answers }
        ensures state { self.new ≡ answers_taken self.old }
    {
        mem::replace(&mut self.answers, Vec::new(self.alloc))
    }

    /// The session is over: the answers of all calls that wait. For want of memory the link is not known any more.
    pub fn conclude(&mut self) -> Result<Vec<NamedLinkReply>, AllocError>
        ensures answers { IfOk result (λ v. v.items ≡ (concluded self.old).answers) }
        ensures state { OnOk result (self.new ≡ answers_taken (concluded self.old)) }
    {
        self.is_concluded = true;
        self.answer_attach()?;
        self.answer_part()?;
        self.answer_outcomes()?;
        Ok(self.take_answers())
    }
}
