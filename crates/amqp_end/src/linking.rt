//! The links of an end: their calls, what they hear of their sessions, and what they write on them.
ghost use Rattle.std.specs.Prelude.{◌≡◌, ℕ, [], ◌∷◌, Some, OnOk, IfOk};
ghost use Rattle.amqp_end.specs.Asks.{limit_for};
ghost use Rattle.amqp_end.specs.Goes.{Goes, GoesOn};
ghost use Rattle.amqp_end.specs.Handed.{HandsAll, HearsOne, WritesOne, HandsOne};
ghost use Rattle.amqp_end.specs.Rests.{Rests};
ghost use Rattle.amqp_links.specs.May.{is_spent_on};
ghost use Rattle.amqp_links.specs.State.{seen as linked};
ghost use Rattle.amqp_sessions.specs.State.{seen};

use crate::end::End;
use amqp_data::Text;
use amqp_links::LinksOutput;
use amqp_sessions::amqp_calls::LinkCall;
use amqp_wire::link::Link;
use std::alloc::AllocError;

/// The most things that sessions and links hand to one another in a row.
const HANDED_IN_A_ROW: u64 = 1 << 62;

impl<L: Link> End<L> {
    /// Makes a call for a link: what it answers at once comes first, then what was read, then what the call writes.
    pub(crate) fn call_link(&mut self, at: u64, name: u64, call: LinkCall) -> Result<(), AllocError>
        ensures goes { OnOk result (Goes L.Link at (Some name) [] ((name, call) ∷ []) self.old self.new) }
        ensures rests { OnOk result (Rests self.new) }
        ensures handed { OnOk result (HandsAll L.Link at self.old self.new) }
    {
        self.know(at);
        self.ask_links(name, call)?;
        self.collect_for(name)?;
        self.run(at)?;
        self.let_links_out()?;
        self.steps(at)
    }

    /// Whether a call of this end has left a link of that name on the session, so that no attach may use the name there again.
    pub fn is_spent(&self, session: u64, name: &Text) -> bool
        ensures { result ≡ is_spent_on session name.now (linked self.now.links) }
    {
        self.links.is_spent(session, name)
    }

    /// The highest handle that a call which attaches a link may take; none where its session has none to give.
    fn limit_for(&self, call: &LinkCall) -> Option<u32>
        ensures { result ≡ limit_for call.now (seen self.now.sessions) }
    {
        match call {
            LinkCall::Sender { session, .. }
            | LinkCall::Receiver { session, .. }
            | LinkCall::Accept { session, .. } => self.sessions.handle_max(*session),
            LinkCall::Send { .. }
            | LinkCall::SendTimed { .. }
            | LinkCall::Outcome { .. }
            | LinkCall::Recv { .. }
            | LinkCall::Dispose { .. }
            | LinkCall::SetCredit { .. }
            | LinkCall::Credit { .. }
            | LinkCall::Regulate { .. }
            | LinkCall::Disposer { .. }
            | LinkCall::DisposeBy { .. }
            | LinkCall::Part { .. } => None,
        }
    }

    fn ask_links(&mut self, name: u64, call: LinkCall) -> Result<(), AllocError>
        ensures { OnOk result ((at : ℕ) → Goes L.Link at (Some name) [] ((name, call) ∷ []) self.old self.new) }
    {
        let limit = self.limit_for(&call);
        self.links.call(name, call, limit)
    }

    /// What the links write goes out.
    fn let_links_out(&mut self) -> Result<(), AllocError>
        ensures goes { OnOk result ((at : ℕ) → GoesOn L.Link at self.old self.new) }
        ensures handed { OnOk result ((at : ℕ) → HandsAll L.Link at self.old self.new) }
    {
        self.hand_on_all()?;
        self.hand_over()
    }

    /// The links hear what the sessions have for them, and the sessions get what the links write, until neither has more.
    pub(crate) fn hand_on_all(&mut self) -> Result<(), AllocError>
        ensures goes { OnOk result ((at : ℕ) → GoesOn L.Link at self.old self.new) }
        ensures connection { self.new.connection ≡ self.old.connection }
        ensures handed { OnOk result ((at : ℕ) → HandsAll L.Link at self.old self.new) }
    {
        let mut left = HANDED_IN_A_ROW;
        'handed: while left > 0 {
            left -= 1;
            if !self.hand_on()? {
                return Ok(());
            }
        }
        Ok(())
    }

    /// One thing is handed from the sessions to the links or back; whether there was one.
    fn hand_on(&mut self) -> Result<bool, AllocError>
        ensures goes { OnOk result ((at : ℕ) → GoesOn L.Link at self.old self.new) }
        ensures connection { self.new.connection ≡ self.old.connection }
        ensures one { IfOk result (HandsOne L.Link self.old self.new) }
    {
        if self.hear_session()? {
            return Ok(true);
        }
        self.write_on_session()
    }

    /// The links hear the first of what the sessions have for them, if there is one.
    fn hear_session(&mut self) -> Result<bool, AllocError>
        ensures goes { OnOk result ((at : ℕ) → GoesOn L.Link at self.old self.new) }
        ensures connection { self.new.connection ≡ self.old.connection }
        ensures one { IfOk result (HearsOne L.Link self.old self.new) }
    {
        match self.sessions.take_for_link() {
            Some((session, input)) => {
                self.links.on_input(session, input)?;
                Ok(true)
            }
            None => Ok(false),
        }
    }

    /// The first of what the links write goes to its session, if there is one. For an Attach of a link that this end does not have
    /// the session is ended.
    fn write_on_session(&mut self) -> Result<bool, AllocError>
        ensures goes { OnOk result ((at : ℕ) → GoesOn L.Link at self.old self.new) }
        ensures connection { self.new.connection ≡ self.old.connection }
        ensures one { IfOk result (WritesOne L.Link self.old self.new) }
    {
        match self.links.take_output() {
            Some(LinksOutput::Frame(session, frame)) => {
                self.sessions.on_link_frame(session, frame)?;
                Ok(true)
            }
            Some(LinksOutput::Astray(session)) => {
                self.sessions.refuse_attach(session)?;
                Ok(true)
            }
            None => Ok(false),
        }
    }
}
