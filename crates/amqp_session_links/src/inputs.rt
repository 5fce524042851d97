//! What was read for a link and waits, in order.
ghost use Rattle.std.specs.Prelude.{◌≡◌, ◌↔◌, IsTrue, [], ◌∷◌, ◌++◌, OnOk};
ghost use Rattle.amqp_session_links.specs.Inputs.{Pops};

use amqp_session::LinkInput;
use std::alloc::{AllocError, Global};
use std::collections::VecDeque;
use std::marker::Model;

/// What was read of one handle of the peer before its link was accepted, in the order in which it came.
pub struct InputQueue {
    inputs: VecDeque<LinkInput>,
}

// A queue is let go by a call, so that no caller sees what waits in it.
impl Drop for InputQueue {
    fn drop(self) {
        let InputQueue { inputs } = self;
        drop(inputs);
    }
}

impl Model for InputQueue {
    ghost use Rattle.std.specs.Prelude.{List};
    ghost use Rattle.std.specs.Coded.{coded_list};
    ghost use Rattle.amqp_session.specs.contracts.session.LinkInput as input;
    ghost use Rattle.amqp_session.specs.declared.session.LinkInput.{LinkInput};

    ghost Value = { List LinkInput };

    ghost coded = { coded_list input.the_row.coded };

    ghost view = { λ q. q.inputs.items };
}

impl InputQueue {
    /// Nothing; takes no memory.
    pub fn new(alloc: Global) -> Self
        ensures { result ≡ [] }
    {
        InputQueue {
            inputs: VecDeque::new(alloc),
        }
    }

    /// Whether nothing waits.
    pub fn is_empty(&self) -> bool
        ensures { IsTrue result ↔ (self.now ≡ []) }
    {
        self.inputs.is_empty()
    }

    /// An input behind all others. The one error is want of memory.
    pub fn push(&mut self, input: LinkInput) -> Result<(), AllocError>
        ensures { OnOk result (self.new ≡ self.old ++ input ∷ []) }
    {
        self.inputs.push_back(input)?;
        Ok(())
    }

    /// The first input.
    pub fn pop(&mut self) -> Option<LinkInput>
        ensures { Pops self.old result self.new }
    {
        self.inputs.pop_front()
    }
}
