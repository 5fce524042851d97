//! Steps of connections alone.
ghost use Rattle.std.specs.Prelude.{◌≡◌, IfOk, option_map};
ghost use Rattle.amqp_calls.specs.Plain.{plain_act, plain_step, plain_steps};

use crate::call::Call;
use crate::step::{Act, Step};
use amqp_words::{Act as ConnectionAct, Step as ConnectionStep, StepList};
use std::alloc::{AllocError, Global};

/// The act, where it makes no call for a session.
fn plain_act(alloc: Global, act: &Act) -> Result<Option<ConnectionAct>, AllocError>
    ensures { IfOk result (λ a. a ≡ plain_act act.now) }
{
    match act {
        Act::Take(count) => Ok(Some(ConnectionAct::Take(*count))),
        Act::TakeAll => Ok(Some(ConnectionAct::TakeAll)),
        Act::Call(Call::Connection(call)) => {
            let call = call.try_clone(alloc)?;
            Ok(Some(ConnectionAct::Call(call)))
        }
        Act::Call(Call::Session(_) | Call::Link(_)) => Ok(None),
    }
}

fn plain_step(alloc: Global, step: &Step) -> Result<Option<ConnectionStep>, AllocError>
    ensures { IfOk result (λ s. s ≡ plain_step step.now) }
{
    match plain_act(alloc, &step.act)? {
        Some(act) => Ok(Some(ConnectionStep {
            end: step.end,
            at: step.at,
            act,
        })),
        None => Ok(None),
    }
}

/// The steps as those of connections, where none of them makes a call for a session. The one error is want of memory.
pub fn plain_steps(alloc: Global, steps: &[Step]) -> Result<Option<StepList>, AllocError>
    ensures { IfOk result (λ found. found ≡ plain_steps steps.now) }
{
    let mut plain = StepList::new(alloc);
    for step in steps {
        match plain_step(alloc, step)? {
            Some(step) => plain.push(step)?,
            None => return Ok(None),
        }
    }
    Ok(Some(plain))
}
