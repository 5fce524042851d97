//! What links write, in order.
ghost use Rattle.std.specs.Prelude.{◌≡◌, [], ◌∷◌, ◌++◌, option_map, OnOk};
ghost use Rattle.amqp_links.specs.Parts.{told, Pops};

use amqp_frames::LinkFrame;
use std::alloc::{AllocError, Global};
use std::collections::VecDeque;
use std::marker::Model;

/// What is to be done on a session.
#[derive(Debug, Drop)]
pub enum LinksOutput {
    /// A frame of a link is to be written on the session of that name.
    Frame(u64, LinkFrame),
    /// The peer has attached a link on the session of that name that no call awaits.
    Astray(u64),
}

/// What links write, in the order in which it is to be done.
pub(crate) struct OutputQueue {
    outputs: VecDeque<LinksOutput>,
}

// A queue is let go by a call, so that no caller sees its frames.
impl Drop for OutputQueue {
    fn drop(self) {
        let OutputQueue { outputs } = self;
        drop(outputs);
    }
}

impl Model for OutputQueue {
    ghost use Rattle.std.specs.Prelude.{List, map};
    ghost use Rattle.std.specs.Coded.{codes};
    ghost use Rattle.amqp_frames.specs.contracts.body.FrameBody as body;
    ghost use Rattle.amqp_links.specs.Parts.{Told, told};

    ghost Value = { List Told };

    ghost coded = { Prim.hlevel (codes, body.the_row.coded) };

    ghost view = { λ q. map told q.outputs.items };
}

impl OutputQueue {
    /// Nothing; takes no memory.
    pub(crate) fn new(alloc: Global) -> Self
        ensures { result ≡ [] }
    {
        OutputQueue {
            outputs: VecDeque::new(alloc),
        }
    }

    /// An output behind all others. The one error is want of memory.
    pub(crate) fn push(&mut self, output: LinksOutput) -> Result<(), AllocError>
        ensures { OnOk result (self.new ≡ self.old ++ told output ∷ []) }
    {
        self.outputs.push_back(output)?;
        Ok(())
    }

    /// The first output.
    pub(crate) fn pop(&mut self) -> Option<LinksOutput>
        ensures { Pops self.old (option_map told result) self.new }
    {
        self.outputs.pop_front()
    }
}
