//! How an end goes on: step by step of its connection, with what comes of each.
ghost use Rattle.std.specs.Prelude.{◌≡◌, ℕ, [], ◌∷◌, ◌++◌, map, true, None, OnOk, IfOk};
ghost use Rattle.amqp_end.specs.Answers.{of_connection, of_link, AreOrdered, answers_to, answers_to_others};
ghost use Rattle.amqp_end.specs.Goes.{Goes, GoesOn};
ghost use Rattle.amqp_end.specs.Handed.{HandsAll, KeepsHanded, KeepsBetween};
ghost use Rattle.amqp_end.specs.Rests.{IsSaid, Rests};
ghost use Rattle.amqp_end.specs.Taken.{TakenOut};
ghost use Rattle.amqp_peer.specs.Hearing.{hears_in, IsOpenIn, waiting_in};
ghost use Rattle.amqp_peer.specs.Held.{IsLate};
ghost use Rattle.amqp_sessions.specs.State.{seen};

use crate::end::{End, memory_of};
use amqp_frames::ConnectionStopReason;
use amqp_sessions::Waiting;
use amqp_sessions::amqp_calls::{NamedLinkReply, NamedReply, Reply};
use amqp_wire::link::Link;
use amqp_words::ReplyList;
use std::alloc::{AllocError, Global};

/// The most steps of the connection in a call or a poll; each reads at most one frame.
const STEPS_OF_CALL: u64 = 1 << 62;

/// Answers of a connection among those of an end.
fn add_replies(replies: &mut Vec<NamedReply>, connection: ReplyList) -> Result<(), AllocError>
    ensures { OnOk result (replies.new.items ≡ replies.old.items ++ map of_connection connection) }
{
    for answer in connection.into_vec() {
        replies.push(NamedReply {
            name: answer.name,
            reply: Reply::Connection(answer.reply),
        })?;
    }
    Ok(())
}

/// Answers of links among those of an end.
fn add_link_replies(
    replies: &mut Vec<NamedReply>,
    links: Vec<NamedLinkReply>,
) -> Result<(), AllocError>
    ensures { OnOk result (replies.new.items ≡ replies.old.items ++ map of_link links.items) }
{
    for answer in links {
        let (name, reply) = answer.into_parts();
        replies.push(NamedReply {
            name,
            reply: Reply::Link(reply),
        })?;
    }
    Ok(())
}

/// Answers in the order of their names; those to one call stay as they stand.
fn sort_by_name(replies: &mut Vec<NamedReply>) -> Result<(), AllocError>
    ensures { OnOk result (AreOrdered replies.old.items replies.new.items) }
{
    replies.sort_by_key(|answer| answer.name)?;
    Ok(())
}

/// Adds an answer behind those to the call of that name, or else behind the others.
fn add_to_either(
    replies: &mut Vec<NamedReply>,
    others: &mut Vec<NamedReply>,
    answer: NamedReply,
    name: u64,
) -> Result<(), AllocError>
    ensures told { OnOk result (replies.new.items ≡ replies.old.items ++ answers_to name (answer ∷ [])) }
    ensures others { OnOk result (others.new.items ≡ others.old.items ++ answers_to_others name (answer ∷ [])) }
{
    if answer.name == name {
        replies.push(answer)?;
        return Ok(());
    }
    others.push(answer)?;
    Ok(())
}

/// Adds the answers to the call of that name behind others; those to other calls are left, in their order.
fn add_own(
    alloc: Global,
    replies: &mut Vec<NamedReply>,
    fresh: Vec<NamedReply>,
    name: u64,
) -> Result<Vec<NamedReply>, AllocError>
    ensures told { OnOk result (replies.new.items ≡ replies.old.items ++ answers_to name fresh.items) }
    ensures others { IfOk result (λ others. others.items ≡ answers_to_others name fresh.items) }
{
    let mut others = Vec::new(alloc);
    for answer in fresh {
        add_to_either(replies, &mut others, answer, name)?;
    }
    Ok(others)
}

/// Adds answers behind others.
fn append(replies: &mut Vec<NamedReply>, fresh: Vec<NamedReply>) -> Result<(), AllocError>
    ensures { OnOk result (replies.new.items ≡ replies.old.items ++ fresh.items) }
{
    for answer in fresh {
        replies.push(answer)?;
    }
    Ok(())
}

impl<L: Link> End<L> {
    /// What was left between sessions and links is handed on, and the end goes on until nothing more can be done.
    pub(crate) fn go_on(&mut self, at: u64) -> Result<(), AllocError>
        ensures goes { OnOk result (Goes L.Link at None [] [] self.old self.new) }
        ensures rests { OnOk result (Rests self.new) }
        ensures handed { OnOk result (HandsAll L.Link at self.old self.new) }
    {
        self.hand_on_all()?;
        self.run(at)
    }

    /// Goes on until nothing more can be done.
    pub(crate) fn run(&mut self, at: u64) -> Result<(), AllocError>
        ensures goes { OnOk result (Goes L.Link at None [] [] self.old self.new) }
        ensures rests { OnOk result (Rests self.new) }
        ensures kept { OnOk result (KeepsHanded L.Link at self.old self.new) }
    {
        self.know(at);
        self.exchange(at)?;
        self.steps(at)?;
        self.look()
    }

    /// The links know the moment.
    pub(crate) fn know(&mut self, at: u64)
        ensures goes { GoesOn L.Link at self.old self.new }
        ensures connection { self.new.connection ≡ self.old.connection }
        ensures between { KeepsBetween self.old self.new }
    {
        self.links.set_moment(at);
    }

    /// Looks at the clock: calls with a time that is over are answered.
    pub(crate) fn look(&mut self) -> Result<(), AllocError>
        ensures goes { OnOk result ((at : ℕ) → GoesOn L.Link at self.old self.new) }
        ensures rests { OnOk result (Rests self.old → Rests self.new) }
        ensures between { OnOk result (KeepsBetween self.old self.new) }
    {
        self.look_at_links()?;
        self.collect()
    }

    fn look_at_links(&mut self) -> Result<(), AllocError>
        ensures goes { OnOk result ((at : ℕ) → GoesOn L.Link at self.old self.new) }
        ensures connection { self.new.connection ≡ self.old.connection }
        ensures sessions { self.new.sessions ≡ self.old.sessions }
        ensures between { OnOk result (KeepsBetween self.old self.new) }
    {
        self.links.look()
    }

    /// Goes on with the exchange of headers, where the connection has not begun.
    fn exchange(&mut self, at: u64) -> Result<(), AllocError>
        ensures goes { OnOk result (Goes L.Link at None [] [] self.old self.new) }
        ensures kept { OnOk result (KeepsHanded L.Link at self.old self.new) }
    {
        if self.connection.is_running() {
            return Ok(());
        }
        match self.connection.poll(at) {
            Ok(()) => self.take_up(),
            Err(error) => Err(memory_of(error)),
        }
    }

    /// The connection goes on, step by step, until nothing more can be done.
    pub(crate) fn steps(&mut self, at: u64) -> Result<(), AllocError>
        ensures goes { OnOk result (Goes L.Link at None [] [] self.old self.new) }
        ensures rests { OnOk result (Rests self.new) }
        ensures kept { OnOk result (KeepsHanded L.Link at self.old self.new) }
    {
        if !self.connection.is_running() {
            return Ok(());
        }
        let mut left = STEPS_OF_CALL;
        'steps: while left > 0 {
            left -= 1;
            if !self.advance(at)? {
                return Ok(());
            }
        }
        Ok(())
    }

    /// One step of the connection, and what comes of it; whether another may follow.
    fn advance(&mut self, at: u64) -> Result<bool, AllocError>
        requires { IsLate self.old.connection.held }
        ensures goes { OnOk result (GoesOn L.Link at self.old self.new) }
        ensures rests { OnOk result (Rests self.new) }
        ensures kept { OnOk result (KeepsHanded L.Link at self.old self.new) }
    {
        match self.connection.step(at) {
            Ok(more) => {
                self.take_up()?;
                Ok(more)
            }
            Err(error) => Err(memory_of(error)),
        }
    }

    /// Takes up what the connection has read for the sessions, and writes what they say to it.
    pub(crate) fn take_up(&mut self) -> Result<(), AllocError>
        ensures goes { OnOk result ((at : ℕ) → GoesOn L.Link at self.old self.new) }
        ensures rests { OnOk result (Rests self.new) }
        ensures kept { OnOk result ((at : ℕ) → KeepsHanded L.Link at self.old self.new) }
    {
        self.hear()?;
        self.accept_waiting()?;
        self.hand_over()?;
        self.look_at_fault()?;
        self.conclude()?;
        self.collect()
    }

    /// Whether the connection has stopped for a fault, and not since an end has closed it.
    fn has_fault(&self) -> bool {
        if self.has_closed {
            return false;
        }
        matches!(
            self.connection.stop_reason(),
            Some(ConnectionStopReason::Closed)
        )
    }

    /// Where the connection stops for a fault, no frame of the peer has stopped it: the clock is looked at first.
    fn look_at_fault(&mut self) -> Result<(), AllocError>
        ensures goes { OnOk result ((at : ℕ) → GoesOn L.Link at self.old self.new) }
        ensures said { OnOk result (IsSaid self.old → IsSaid self.new) }
        ensures between { OnOk result (KeepsBetween self.old self.new) }
    {
        if self.has_concluded || !self.has_fault() {
            return Ok(());
        }
        self.look_at_links()
    }

    /// The sessions and their links hear the frames that the connection has read for them. After each the clock is looked at.
    fn hear(&mut self) -> Result<(), AllocError>
        ensures goes { OnOk result ((at : ℕ) → GoesOn L.Link at self.old self.new) }
        ensures heard { OnOk result (waiting_in self.new.connection.held ≡ []) }
        ensures kept { OnOk result ((at : ℕ) → KeepsHanded L.Link at self.old self.new) }
    {
        'frames: while let Some(frame) = self.connection.take_incoming() {
            self.sessions.on_frame(frame)?;
            self.hand_on_all()?;
            self.look_at_links()?;
        }
        Ok(())
    }

    /// An `accept_session` that waits takes the first session that the peer has begun and that waits.
    fn accept_waiting(&mut self) -> Result<(), AllocError>
        ensures goes { OnOk result ((at : ℕ) → GoesOn L.Link at self.old self.new) }
        ensures kept { OnOk result ((at : ℕ) → KeepsHanded L.Link at self.old self.new) }
    {
        let Some(Waiting::Accept(name, numbers)) = self.sessions.waiting() else {
            return Ok(());
        };
        if !self.connection.is_open() || self.connection.incoming_session().is_none() {
            return Ok(());
        }
        self.accept_first(name, numbers)?;
        self.sessions.hand_out(name)?;
        self.hand_on_all()
    }

    /// Gives the frames of the sessions to the connection, and their channels back, while it is open.
    pub(crate) fn hand_over(&mut self) -> Result<(), AllocError>
        ensures goes { OnOk result ((at : ℕ) → GoesOn L.Link at self.old self.new) }
        ensures said { OnOk result (IsSaid self.new) }
        ensures between { OnOk result (KeepsBetween self.old self.new) }
    {
        if !self.connection.is_open() {
            return Ok(());
        }
        self.write()?;
        self.give_back();
        Ok(())
    }

    /// Gives the frames of the sessions to the connection, which is open, or hears no more.
    fn write(&mut self) -> Result<(), AllocError>
        requires late { IsLate self.old.connection.held }
        requires opened { hears_in self.old.connection.held ≡ true → IsOpenIn self.old.connection.held }
        ensures goes { OnOk result ((at : ℕ) → GoesOn L.Link at self.old self.new) }
        ensures written { OnOk result ((seen self.new.sessions).output ≡ []) }
        ensures between { OnOk result (KeepsBetween self.old self.new) }
    {
        'frames: while let Some(frame) = self.sessions.take_output() {
            match self.connection.send(frame) {
                Ok(()) => {}
                Err(error) => return Err(memory_of(error)),
            }
        }
        Ok(())
    }

    /// Gives the channels of sessions that are ended back to the connection.
    fn give_back(&mut self)
        ensures goes { (at : ℕ) → GoesOn L.Link at self.old self.new }
        ensures output { (seen self.new.sessions).output ≡ (seen self.old.sessions).output }
        ensures freed { (seen self.new.sessions).freed ≡ [] }
        ensures between { KeepsBetween self.old self.new }
    {
        'channels: while let Some(channel) = self.sessions.take_freed() {
            self.connection.deallocate_session(channel);
        }
    }

    /// Tells the sessions and their links once that the connection has stopped.
    fn conclude(&mut self) -> Result<(), AllocError>
        ensures goes { OnOk result ((at : ℕ) → GoesOn L.Link at self.old self.new) }
        ensures said { OnOk result (IsSaid self.old → IsSaid self.new) }
        ensures kept { OnOk result ((at : ℕ) → KeepsHanded L.Link at self.old self.new) }
    {
        if self.has_concluded {
            return Ok(());
        }
        if let Some(reason) = self.connection.stop_reason() {
            self.has_concluded = true;
            self.sessions.conclude(reason)?;
            return self.hand_on_all();
        }
        Ok(())
    }

    /// Takes out the answers that are new, in the order of their names.
    fn take_answers(&mut self) -> Result<Vec<NamedReply>, AllocError>
        ensures { IfOk result (λ answers. TakenOut self.old self.new answers.items) }
    {
        let mut fresh = self.sessions.take_replies();
        add_replies(&mut fresh, self.connection.replies())?;
        add_link_replies(&mut fresh, self.links.take_replies())?;
        sort_by_name(&mut fresh)?;
        Ok(fresh)
    }

    /// Takes in the answers that are new, in the order of their names.
    pub(crate) fn collect(&mut self) -> Result<(), AllocError>
        ensures goes { OnOk result ((at : ℕ) → GoesOn L.Link at self.old self.new) }
        ensures said { OnOk result (IsSaid self.old → IsSaid self.new) }
        ensures between { OnOk result (KeepsBetween self.old self.new) }
    {
        let fresh = self.take_answers()?;
        append(&mut self.replies, fresh)
    }

    /// Takes in the answers that are new behind a call: those to the call itself first.
    pub(crate) fn collect_for(&mut self, name: u64) -> Result<(), AllocError>
        ensures { OnOk result ((at : ℕ) → GoesOn L.Link at self.old self.new) }
    {
        let fresh = self.take_answers()?;
        let others = add_own(self.alloc, &mut self.replies, fresh, name)?;
        append(&mut self.replies, others)
    }
}
