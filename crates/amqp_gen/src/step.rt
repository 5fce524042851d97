//! Steps that are made.
ghost use Rattle.std.specs.Prelude.{◌≡◌, ◌++◌, ◌∷◌, [], OnOk};
ghost use Rattle.amqp_gen.specs.Step.{step_of};

use amqp_calls::{Act, Call, Step};
use amqp_words::End;
use std::alloc::AllocError;

/// Adds a step at moment 0.
pub fn push(steps: &mut Vec<Step>, end: End, act: Act) -> Result<(), AllocError>
    ensures { OnOk result (steps.new.items ≡ steps.old.items ++ step_of end act ∷ []) }
{
    steps.push(Step { end, at: 0, act })?;
    Ok(())
}

/// Adds a step that makes a call.
pub fn push_call(steps: &mut Vec<Step>, end: End, call: Call) -> Result<(), AllocError>
    ensures { OnOk result (steps.new.items ≡ steps.old.items ++ step_of end (Act.Call call) ∷ []) }
{
    push(steps, end, Act::Call(call))
}
