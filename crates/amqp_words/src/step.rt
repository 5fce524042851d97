//! The steps of two ends.
ghost use Rattle.std.specs.Prelude.{◌≡◌, IfOk, OnOk, OnErr, [], ◌∷◌, ◌++◌, length};

use crate::call::Call;
use std::alloc::{AllocError, Global};
use std::marker::Model;

/// Which of the two ends.
#[derive(Clone, Copy, Debug, PartialEq, Eq)]
pub enum End {
    /// The end that opens the connection.
    Client,
    /// The end that accepts it.
    Listener,
}

/// What a step does at its end.
#[derive(Debug, Drop)]
pub enum Act {
    /// Moves so many bytes that the other end wrote to this one.
    Take(u64),
    /// Moves all that the other end wrote and that were not moved yet.
    TakeAll,
    /// Makes a call.
    Call(Call),
}

/// A step of one end.
#[derive(Debug)]
pub struct Step {
    /// The end.
    pub end: End,
    /// The moment, in milliseconds.
    pub at: u64,
    /// What is done.
    pub act: Act,
}

// A step is let go by a call, so that no caller sees the parts of its act.
impl Drop for Step {
    fn drop(self) {
        let Step { end: _, at: _, act } = self;
        drop(act);
    }
}

impl Act {
    /// A copy; the one error is want of memory.
    pub fn try_clone(&self, alloc: Global) -> Result<Self, AllocError>
        ensures { IfOk result (λ a. a ≡ self.now) }
    {
        match self {
            Act::Take(count) => Ok(Act::Take(*count)),
            Act::TakeAll => Ok(Act::TakeAll),
            Act::Call(call) => {
                let call = call.try_clone(alloc)?;
                Ok(Act::Call(call))
            }
        }
    }
}

impl Step {
    /// A copy; the one error is want of memory.
    pub fn try_clone(&self, alloc: Global) -> Result<Self, AllocError>
        ensures { IfOk result (λ s. s ≡ self.now) }
    {
        let act = self.act.try_clone(alloc)?;
        Ok(Step {
            end: self.end,
            at: self.at,
            act,
        })
    }
}

/// Steps in order, seen as the list of them.
#[derive(Debug)]
pub struct StepList {
    steps: Vec<Step>,
}

// The list is let go by a call, so that no caller sees what it holds.
impl Drop for StepList {
    fn drop(self) {
        let StepList { steps } = self;
        drop(steps);
    }
}

impl Model for StepList {
    ghost use Rattle.std.specs.Prelude.{List};
    ghost use Rattle.amqp_words.specs.declared.step.Step.{Step};

    ghost Value = { List Step };

    ghost view = { λ s. s.steps.items };
}

impl StepList {
    /// No steps; takes no memory.
    pub fn new(alloc: Global) -> Self
        ensures { result ≡ [] }
    {
        StepList {
            steps: Vec::new(alloc),
        }
    }

    /// The number of steps.
    pub fn len(&self) -> usize
        ensures { result ≡ length self.now }
    {
        self.steps.len()
    }

    /// The steps, lent.
    pub fn as_slice(&self) -> &[Step]
        ensures { result.now ≡ self.now }
    {
        self.steps.as_slice()
    }

    /// Adds a step at the end; want of memory leaves the list as it was.
    pub fn push(&mut self, step: Step) -> Result<(), AllocError>
        ensures ok { OnOk result (self.new ≡ self.old ++ step ∷ []) }
        ensures err { OnErr result (self.new ≡ self.old) }
    {
        self.steps.push(step)?;
        Ok(())
    }
}
