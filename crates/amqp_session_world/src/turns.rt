//! One step of two ends with sessions and links.
ghost use Rattle.std.specs.Prelude.{◌≡◌, ◌↔◌, ◌≤◌, length, OnOk, IfOk, IsTrue};
ghost use Rattle.amqp_end.specs.Goes.{Goes};
ghost use Rattle.amqp_session_world.specs.Turn.{untaken, count_of, IsWithin, MayAct, CanAct, called, calls_of, link_calls_of, given, marked, named, Turned};
ghost use Rattle.amqp_world.specs.Turn.{piping};

use amqp_end::amqp_calls::{Act, Entry};
use amqp_end::{End, EndError};
use amqp_wire::pipe::Pipe;
use std::alloc::{AllocError, Global};

/// Whether an act may be made at the end `near`.
pub(crate) fn can_act(near: &End<Pipe>, far: &End<Pipe>, name: u64, act: &Act) -> bool
    ensures { IsTrue result ↔ CanAct near.now far.now name act.now }
{
    match act {
        Act::Take(count) => *count <= far.link_ref().untaken().len() as u64,
        Act::TakeAll => true,
        Act::Call(call) => near.may_call(name, call),
    }
}

/// How many bytes an act moves.
fn count_of(far: &End<Pipe>, act: &Act) -> usize
    requires { IsWithin act.now far.now }
    ensures { result ≡ count_of act.now far.now }
{
    match act {
        Act::Take(count) => *count as usize,
        Act::TakeAll => far.link_ref().untaken().len(),
        Act::Call(_) => 0,
    }
}

/// Moves so many bytes from the far end's output to the near end's input.
fn transfer(near: &mut End<Pipe>, far: &mut End<Pipe>, count: usize) -> Result<(), AllocError>
    requires { count ≤ length (untaken far.old) }
    ensures near { OnOk result (near.new ≡ given near.old far.old count) }
    ensures far { OnOk result (far.new ≡ marked far.old count) }
{
    let piece = far.link_ref().untaken();
    near.link().give(&piece[..count])?;
    far.link().taken(count);
    Ok(())
}

/// Makes the act's call, or polls.
fn act_at(
    alloc: Global,
    near: &mut End<Pipe>,
    name: u64,
    at: u64,
    act: &Act,
) -> Result<(), AllocError>
    requires { MayAct near.old name act.now }
    ensures { OnOk result (Goes piping at (called name act.now) (calls_of name act.now) (link_calls_of name act.now) (named name act.now near.old) near.new) }
{
    let done = match act {
        Act::Call(call) => {
            let call = call.try_clone(alloc)?;
            near.call(at, name, call)
        }
        Act::Take(_) | Act::TakeAll => near.poll(at),
    };
    match done {
        Ok(()) => Ok(()),
        Err(EndError::Memory(error)) => Err(error),
        Err(EndError::Failed) => Err(AllocError),
    }
}

/// One step at the end `near`, whose name is `name`.
pub(crate) fn turn(
    alloc: Global,
    near: &mut End<Pipe>,
    far: &mut End<Pipe>,
    name: u64,
    at: u64,
    act: &Act,
) -> Result<Entry, AllocError>
    requires { CanAct near.old far.old name act.now }
    ensures { IfOk result (λ entry. Turned near.old far.old name at act.now near.new far.new entry) }
{
    let before = near.link_ref().output().len();
    let count = count_of(far, act);
    transfer(near, far, count)?;
    act_at(alloc, near, name, at, act)?;
    let replies = near.replies();
    let mut wrote = Vec::new(alloc);
    wrote.extend_from_slice(&near.link_ref().output()[before..])?;
    Ok(Entry { replies, wrote })
}
