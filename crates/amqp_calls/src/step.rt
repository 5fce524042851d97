//! The steps of two ends.
ghost use Rattle.std.specs.Prelude.{◌≡◌, IfOk};

use crate::call::Call;
use amqp_words::End;
use std::alloc::{AllocError, Global};

/// What a step does at its end.
#[derive(Debug, Drop)]
pub enum Act {
    /// Moves so many bytes that the other end wrote to this one.
    Take(u64),
    /// Moves all that the other end wrote and that were not moved yet.
    TakeAll,
    /// Makes a call.
    Call(Call),
}

/// A step of one end.
#[derive(Debug)]
pub struct Step {
    /// The end.
    pub end: End,
    /// The moment, in milliseconds.
    pub at: u64,
    /// What is done.
    pub act: Act,
}

// A step is let go by a call, so that no caller sees the parts of its act.
impl Drop for Step {
    fn drop(self) {
        let Step { end: _, at: _, act } = self;
        drop(act);
    }
}

impl Act {
    /// A copy; the one error is want of memory.
    pub fn try_clone(&self, alloc: Global) -> Result<Self, AllocError>
        ensures { IfOk result (λ a. a ≡ self.now) }
    {
        match self {
            Act::Take(count) => Ok(Act::Take(*count)),
            Act::TakeAll => Ok(Act::TakeAll),
            Act::Call(call) => {
                let call = call.try_clone(alloc)?;
                Ok(Act::Call(call))
            }
        }
    }
}
