//! What became of a connection that is served, and what is done next.
ghost use Rattle.std.specs.Prelude.{◌≡◌, ◌≤◌, ◌↔◌, ◌+◌, ◌-◌, min, OnOk, IfSome, IsTrue};
ghost use Rattle.amqp_served.specs.declared.served.Phase.{Phase};
ghost use Rattle.amqp_served.specs.Served.{counted, owed_made, phase_after, phase_made, IsUnfinished};

use crate::news::News;
use std::alloc::{AllocError, Global};

/// A session that was accepted.
#[derive(Clone, Copy, Debug)]
pub struct ServedSession {
    /// The name of the call that accepted it.
    pub name: u64,
    /// The call that accepts a link and waits.
    pub accepting: Option<u64>,
    /// No link comes any more.
    pub is_over: bool,
}

/// A receiver that was attached.
#[derive(Clone, Copy, Debug)]
pub struct ServedReceiver {
    /// The name of the call that accepted it.
    pub name: u64,
    /// The call that gave a delivery which is not settled yet.
    pub unsettled: Option<u64>,
    /// Nothing is there until more comes.
    pub is_empty: bool,
    /// No message comes any more.
    pub is_over: bool,
}

/// How far the connection is.
#[derive(Clone, Copy, Debug, PartialEq, Eq)]
pub enum Phase {
    /// No call was made.
    Start,
    /// It is being accepted.
    Opening,
    /// It is open.
    Open,
    /// The peer has closed it without an error.
    Closed,
}

/// What is done next.
#[derive(Clone, Copy, Debug, PartialEq, Eq)]
pub enum Act {
    /// The connection is accepted.
    AcceptConnection,
    /// A session is accepted.
    AcceptSession,
    /// A link is accepted on the session of that name.
    AcceptLink(u64),
    /// The delivery that the second call gave is accepted at the receiver of the first.
    Settle(u64, u64),
    /// The receiver of that name is asked for a message.
    Receive(u64),
    /// More has to come first.
    Wait,
    /// All that came was taken, and the connection is closed.
    Finish,
}

/// What became of a connection that is served.
#[derive(Debug, Drop)]
pub struct Served {
    phase: Phase,
    /// The call that accepts a session and waits.
    accepting: Option<u64>,
    sessions: Vec<ServedSession>,
    receivers: Vec<ServedReceiver>,
    messages: u64,
    /// How many of the messages were not accepted yet.
    owed: u64,
    ghost within: { owed ≤ messages },
}

impl Served {
    /// Nothing was done yet.
    pub fn new(alloc: Global) -> Self
        ensures messages { result.messages ≡ 0 }
        ensures owed { result.owed ≡ 0 }
        ensures phase { result.phase ≡ Phase.Start }
    {
        Served {
            phase: Phase::Start,
            accepting: None,
            sessions: Vec::new(alloc),
            receivers: Vec::new(alloc),
            messages: 0,
            owed: 0,
        }
    }

    /// How many messages came whole.
    pub fn messages(&self) -> u64
        ensures { result ≡ self.now.messages }
    {
        self.messages
    }

    /// Whether an accept was called of each message that came.
    pub fn is_settled(&self) -> bool
        ensures { IsTrue result ↔ (self.now.owed ≡ 0) }
    {
        self.owed == 0
    }

    /// What is done next: first all that can be done for what came.
    pub fn next_act(&self) -> Act
        ensures start { self.now.phase ≡ Phase.Start → result ≡ Act.AcceptConnection }
        ensures finish { result ≡ Act.Finish → self.now.phase ≡ Phase.Closed }
    {
        match self.phase {
            Phase::Start => return Act::AcceptConnection,
            Phase::Opening => return Act::Wait,
            Phase::Open | Phase::Closed => {}
        }
        if let Some(act) = self.next_at_receivers() {
            return act;
        }
        if self.phase == Phase::Closed {
            return Act::Finish;
        }
        if self.accepting.is_none() {
            return Act::AcceptSession;
        }
        match self.next_at_sessions() {
            Some(act) => act,
            None => Act::Wait,
        }
    }

    fn next_at_receivers(&self) -> Option<Act>
        ensures { IfSome result IsUnfinished }
    {
        for receiver in self.receivers.iter() {
            if let Some(delivery) = receiver.unsettled {
                return Some(Act::Settle(receiver.name, delivery));
            }
            if !receiver.is_empty && !receiver.is_over {
                return Some(Act::Receive(receiver.name));
            }
        }
        None
    }

    fn next_at_sessions(&self) -> Option<Act>
        ensures { IfSome result IsUnfinished }
    {
        for session in self.sessions.iter() {
            if session.accepting.is_none() && !session.is_over {
                return Some(Act::AcceptLink(session.name));
            }
        }
        None
    }

    /// The call of an act was made under this name.
    pub fn made(&mut self, act: Act, name: u64)
        ensures messages { self.new.messages ≡ self.old.messages }
        ensures owed { self.new.owed ≡ owed_made act self.old.owed }
        ensures phase { self.new.phase ≡ phase_made act self.old.phase }
    {
        match act {
            Act::AcceptConnection => self.phase = Phase::Opening,
            Act::AcceptSession => self.accepting = Some(name),
            Act::AcceptLink(session) => begin_accepting(&mut self.sessions, session, name),
            Act::Settle(receiver, _) => self.accepted_at(receiver),
            Act::Receive(receiver) => ask(&mut self.receivers, receiver),
            Act::Wait | Act::Finish => {}
        }
    }

    /// A message of the receiver of that name is accepted.
    fn accepted_at(&mut self, receiver: u64)
        ensures messages { self.new.messages ≡ self.old.messages }
        ensures owed { self.new.owed ≡ self.old.owed - 1 }
        ensures phase { self.new.phase ≡ self.old.phase }
    {
        self.owed = self.owed.saturating_sub(1);
        settle(&mut self.receivers, receiver);
    }

    /// The call of an act may not be made: what it is for has ended.
    pub fn passed_over(&mut self, act: Act)
        ensures messages { self.new.messages ≡ self.old.messages }
        ensures owed { self.new.owed ≡ self.old.owed }
        ensures phase { self.new.phase ≡ self.old.phase }
    {
        match act {
            Act::AcceptLink(session) => end_session(&mut self.sessions, session),
            Act::Settle(receiver, _) => settle(&mut self.receivers, receiver),
            Act::Receive(receiver) => end_receiver(&mut self.receivers, receiver),
            Act::AcceptConnection | Act::AcceptSession | Act::Wait | Act::Finish => {}
        }
    }

    /// More may have come.
    pub fn waited(&mut self)
        ensures messages { self.new.messages ≡ self.old.messages }
        ensures owed { self.new.owed ≡ self.old.owed }
        ensures phase { self.new.phase ≡ self.old.phase }
    {
        refresh(&mut self.receivers);
    }

    /// The peer has closed the connection without an error.
    pub fn close(&mut self)
        ensures messages { self.new.messages ≡ self.old.messages }
        ensures owed { self.new.owed ≡ self.old.owed }
        ensures phase { self.new.phase ≡ Phase.Closed }
    {
        self.accepting = None;
        self.phase = Phase::Closed;
    }

    fn add_session(&mut self, name: u64) -> Result<(), AllocError>
        ensures messages { self.new.messages ≡ self.old.messages }
        ensures owed { self.new.owed ≡ self.old.owed }
        ensures phase { self.new.phase ≡ self.old.phase }
    {
        self.accepting = None;
        self.sessions.push(ServedSession {
            name,
            accepting: None,
            is_over: false,
        })?;
        Ok(())
    }

    fn add_receiver(&mut self, name: u64) -> Result<(), AllocError>
        ensures messages { self.new.messages ≡ self.old.messages }
        ensures owed { self.new.owed ≡ self.old.owed }
        ensures phase { self.new.phase ≡ self.old.phase }
    {
        end_accepting(&mut self.sessions, name, false);
        self.receivers.push(ServedReceiver {
            name,
            unsettled: None,
            is_empty: false,
            is_over: false,
        })?;
        Ok(())
    }

    /// The call of that name gave a message.
    fn deliver(&mut self, act: Act, name: u64)
        ensures messages { self.new.messages ≡ min (self.old.messages + 1) 18446744073709551615 }
        ensures owed { self.new.owed ≡ min (self.old.owed + 1) 18446744073709551615 }
        ensures phase { self.new.phase ≡ self.old.phase }
    {
        self.messages = self.messages.saturating_add(1);
        self.owed = self.owed.saturating_add(1);
        if let Act::Receive(receiver) = act {
            deliver(&mut self.receivers, receiver, name);
        }
    }

    /// No message comes any more at the receiver that was asked.
    fn dry(&mut self, act: Act)
        ensures messages { self.new.messages ≡ self.old.messages }
        ensures owed { self.new.owed ≡ self.old.owed }
        ensures phase { self.new.phase ≡ self.old.phase }
    {
        if let Act::Receive(receiver) = act {
            end_receiver(&mut self.receivers, receiver);
        }
    }

    /// Takes in what an answer to the call of that name says; `act` is the act whose call was made last. The one error is want of
    /// memory.
    pub fn hear(&mut self, act: Act, name: u64, news: News) -> Result<(), AllocError>
        ensures messages { OnOk result (self.new.messages ≡ counted news self.old.messages) }
        ensures owed { OnOk result (self.new.owed ≡ counted news self.old.owed) }
        ensures phase { OnOk result (self.new.phase ≡ phase_after news self.old.phase) }
    {
        match news {
            News::Opened => self.phase = Phase::Open,
            News::Closed => self.close(),
            News::Session => self.add_session(name)?,
            News::Receiver => self.add_receiver(name)?,
            News::Sender => end_accepting(&mut self.sessions, name, false),
            News::NoLink => end_accepting(&mut self.sessions, name, true),
            News::Delivery => self.deliver(act, name),
            News::NoMessage => self.dry(act),
            News::Nothing | News::Fault => {}
        }
        Ok(())
    }
}

/// The session of that name has a call that accepts a link and waits.
fn begin_accepting(sessions: &mut [ServedSession], name: u64, call: u64) {
    for session in sessions.iter_mut() {
        if session.name == name {
            session.accepting = Some(call);
        }
    }
}

/// The call that accepts a link was answered: by a link, or since the session is over.
fn end_accepting(sessions: &mut [ServedSession], call: u64, is_over: bool) {
    for session in sessions.iter_mut() {
        if session.accepting == Some(call) {
            session.accepting = None;
            session.is_over = is_over;
        }
    }
}

fn end_session(sessions: &mut [ServedSession], name: u64) {
    for session in sessions.iter_mut() {
        if session.name == name {
            session.is_over = true;
        }
    }
}

/// The delivery of the receiver of that name is settled.
fn settle(receivers: &mut [ServedReceiver], name: u64) {
    for receiver in receivers.iter_mut() {
        if receiver.name == name {
            receiver.unsettled = None;
        }
    }
}

/// The receiver of that name is asked for a message: there is none until one comes.
fn ask(receivers: &mut [ServedReceiver], name: u64) {
    for receiver in receivers.iter_mut() {
        if receiver.name == name {
            receiver.is_empty = true;
        }
    }
}

fn end_receiver(receivers: &mut [ServedReceiver], name: u64) {
    for receiver in receivers.iter_mut() {
        if receiver.name == name {
            receiver.is_over = true;
        }
    }
}

/// The call of that name gave a message of the receiver of that name.
fn deliver(receivers: &mut [ServedReceiver], name: u64, call: u64) {
    for receiver in receivers.iter_mut() {
        if receiver.name == name {
            receiver.unsettled = Some(call);
            receiver.is_empty = false;
        }
    }
}

/// A message may be there at each receiver.
fn refresh(receivers: &mut [ServedReceiver]) {
    for receiver in receivers.iter_mut() {
        receiver.is_empty = false;
    }
}
