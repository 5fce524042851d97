//! What waits, in order: frames to be written, and what sessions have for their links.
ghost use Rattle.std.specs.Prelude.{◌≡◌, [], ◌∷◌, ◌++◌, option_map, OnOk};
ghost use Rattle.amqp_session.specs.State.{framed};
ghost use Rattle.amqp_sessions.specs.Parts.{Pops, PopsInput};

use amqp_frames::SessionFrame;
use amqp_session::LinkInput;
use std::alloc::{AllocError, Global};
use std::collections::VecDeque;
use std::marker::Model;

/// Frames of sessions, in the order in which they came.
pub(crate) struct FrameQueue {
    frames: VecDeque<SessionFrame>,
}

// A queue is let go by a call, so that no caller sees its frames.
impl Drop for FrameQueue {
    fn drop(self) {
        let FrameQueue { frames } = self;
        drop(frames);
    }
}

impl Model for FrameQueue {
    ghost use Rattle.std.specs.Prelude.{List, map};
    ghost use Rattle.std.specs.Coded.{codes};
    ghost use Rattle.amqp_frames.specs.contracts.body.FrameBody as body;
    ghost use Rattle.amqp_session.specs.State.{Framed, framed};

    ghost Value = { List Framed };

    ghost coded = { Prim.hlevel (codes, body.the_row.coded) };

    ghost view = { λ q. map framed q.frames.items };
}

impl FrameQueue {
    /// No frames; takes no memory.
    pub(crate) fn new(alloc: Global) -> Self
        ensures { result ≡ [] }
    {
        FrameQueue {
            frames: VecDeque::new(alloc),
        }
    }

    /// A frame behind all others. The one error is want of memory.
    pub(crate) fn push(&mut self, frame: SessionFrame) -> Result<(), AllocError>
        ensures { OnOk result (self.new ≡ self.old ++ framed frame ∷ []) }
    {
        self.frames.push_back(frame)?;
        Ok(())
    }

    /// The first frame.
    pub(crate) fn pop(&mut self) -> Option<SessionFrame>
        ensures { Pops self.old (option_map framed result) self.new }
    {
        self.frames.pop_front()
    }
}

/// What sessions have for their links, each with the name of its session, in the order in which it came.
pub(crate) struct InputQueue {
    inputs: VecDeque<(u64, LinkInput)>,
}

// A queue is let go by a call, so that no caller sees what waits in it.
impl Drop for InputQueue {
    fn drop(self) {
        let InputQueue { inputs } = self;
        drop(inputs);
    }
}

impl Model for InputQueue {
    ghost use Rattle.std.specs.Prelude.{ℕ, List};
    ghost use Rattle.std.specs.Coded.{codes};
    ghost use Rattle.amqp_session.specs.contracts.session.LinkInput as input;
    ghost use Rattle.amqp_session.specs.declared.session.LinkInput.{LinkInput};

    ghost Value = { List (ℕ × LinkInput) };

    ghost coded = { Prim.hlevel (codes, input.the_row.coded) };

    ghost view = { λ q. q.inputs.items };
}

impl InputQueue {
    /// Nothing; takes no memory.
    pub(crate) fn new(alloc: Global) -> Self
        ensures { result ≡ [] }
    {
        InputQueue {
            inputs: VecDeque::new(alloc),
        }
    }

    /// What the session of that name has, behind all else. The one error is want of memory.
    pub(crate) fn push(&mut self, session: u64, input: LinkInput) -> Result<(), AllocError>
        ensures { OnOk result (self.new ≡ self.old ++ (session, input) ∷ []) }
    {
        self.inputs.push_back((session, input))?;
        Ok(())
    }

    /// The first.
    pub(crate) fn pop(&mut self) -> Option<(u64, LinkInput)>
        ensures { PopsInput self.old result self.new }
    {
        self.inputs.pop_front()
    }
}
