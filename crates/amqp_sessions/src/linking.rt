//! What the sessions of a connection do for their links (OASIS AMQP 1.0, part 2, section 2.6).
ghost use Rattle.std.specs.Prelude.{◌≡◌, ◌↔◌, IsTrue, OnOk};
ghost use Rattle.amqp_sessions.specs.Calls.{MayEnd, handle_max};
ghost use Rattle.amqp_sessions.specs.Frames.{written, refusing};
ghost use Rattle.amqp_sessions.specs.State.{seen, TakesInput};

use crate::sessions::Sessions;
use amqp_frames::LinkFrame;
use amqp_session::LinkInput;
use std::alloc::AllocError;

/// Lets a frame go.
fn discard(_frame: LinkFrame) {}

impl Sessions {
    /// Whether a link may be attached or accepted on that session now: it was made, no call has let it go, and neither its `begin` nor
    /// an `end` waits.
    pub fn may_attach(&self, session: u64) -> bool
        ensures { IsTrue result ↔ MayEnd session (seen self.now) }
    {
        self.may_end(session)
    }

    /// The highest handle that this end may use on that session; none where it is not begun at both ends, or was ended.
    pub fn handle_max(&self, session: u64) -> Option<u32>
        ensures { result ≡ handle_max session (seen self.now) }
    {
        self.endpoints.get(&session)?.handle_max()
    }

    /// The first of what the sessions have for their links, with the name of its session.
    pub fn take_for_link(&mut self) -> Option<(u64, LinkInput)>
        ensures { TakesInput (seen self.old) result (seen self.new) }
    {
        self.incoming.pop()
    }

    /// A link writes a frame on that session. It is dropped where no session has that name, or that is not begun at both ends. The
    /// one error is want of memory.
    pub fn on_link_frame(&mut self, session: u64, frame: LinkFrame) -> Result<(), AllocError>
        ensures { OnOk result (seen self.new ≡ written session frame (seen self.old)) }
    {
        let Some(endpoint) = self.endpoints.get_mut(&session) else {
            discard(frame);
            return Ok(());
        };
        endpoint.write(frame)?;
        self.hand_out(session)
    }

    /// The peer has attached a link that this end does not have: that session is ended with `amqp:not-found`, where it is begun at
    /// both ends. The one error is want of memory.
    pub fn refuse_attach(&mut self, session: u64) -> Result<(), AllocError>
        ensures { OnOk result (seen self.new ≡ refusing session (seen self.old)) }
    {
        let Some(endpoint) = self.endpoints.get_mut(&session) else {
            return Ok(());
        };
        endpoint.refuse_attach()?;
        self.hand_out(session)
    }
}
