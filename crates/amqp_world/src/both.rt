//! Both ends, the steps made and their entries.
ghost use Rattle.std.specs.Prelude.{◌≡◌, ◌↔◌, ◌≤◌, ◌+◌, List, ℕ, [], ◌∷◌, ◌++◌, length, drop, true, false, Ok, Err, IfOk, OnOk, OnErr, IsTrue, IsErrOf};
ghost use Rattle.amqp_peer.specs.Peering.{Peering, fresh};
ghost use Rattle.amqp_peer.specs.Runs.{Stepped};
ghost use Rattle.amqp_words.specs.declared.step.End.TheVariants.{Client, Listener};
ghost use Rattle.amqp_words.specs.declared.trace.Entry.{Entry};
ghost use Rattle.amqp_world.specs.History.{moved, begun};
ghost use Rattle.amqp_world.specs.Valid.{IsValid, kind_of};
ghost use Rattle.amqp_world.specs.Turn.{piping, empty_pipe, pipe_of, MayAct, CanAct, given, marked, Turned, IsTurn, start};
ghost use Rattle.amqp_world.specs.Related.{Related, past_in, view_of};

use amqp_peer::{Peer, PeerError};
use amqp_text::Binary;
use amqp_wire::pipe::Pipe;
use amqp_words::{Act, End, Entry, EntryList, Step, StepList, Trace};
use std::alloc::{AllocError, Global};

/// Both ends, the steps made and their entries.
#[derive(Drop)]
pub struct Both {
    /// The end that opens the connection.
    pub client: Peer<Pipe>,
    /// The end that accepts it.
    pub listener: Peer<Pipe>,
    /// The steps made.
    pub steps: StepList,
    /// Their entries.
    pub trace: Trace,
    /// The moment of the last step.
    pub moment: u64,
}

/// Moves so many bytes from the far end's output to the near end's input.
fn transfer(near: &mut Peer<Pipe>, far: &mut Peer<Pipe>, count: usize) -> Result<(), AllocError>
    requires { (pipe_of far.old).mark + count ≤ length (pipe_of far.old).output }
    ensures near { OnOk result (near.new ≡ given near.old (pipe_of far.old) count) }
    ensures far { OnOk result (far.new ≡ marked far.old count) }
{
    let piece = far.link_ref().untaken();
    near.link().give(&piece[..count])?;
    far.link().taken(count);
    Ok(())
}

/// How many bytes an act moves.
fn count_of(far: &Peer<Pipe>, act: &Act) -> usize
    requires { (pipe_of far.now).mark ≤ length (pipe_of far.now).output }
    ensures { (pipe_of far.now).mark + result ≡ moved act.now (pipe_of far.now).mark (length (pipe_of far.now).output) }
{
    match act {
        Act::Take(count) => *count as usize,
        Act::TakeAll => far.link_ref().untaken().len(),
        Act::Call(_) => 0,
    }
}

/// Makes the act's call, or polls.
fn act_at(
    alloc: Global,
    near: &mut Peer<Pipe>,
    name: u64,
    at: u64,
    act: &Act,
) -> Result<(), AllocError>
    requires can { MayAct near.old name act.now }
    requires alive { near.old.failed ≡ false }
    ensures stepped { OnOk result (Stepped piping near.old (begun at name act.now) near.new) }
    ensures alive { OnOk result (near.new.failed ≡ false) }
{
    let done = match act {
        Act::Call(call) => {
            let call = call.try_clone(alloc)?;
            near.call(at, name, call)
        }
        _ => near.poll(at),
    };
    match done {
        Ok(()) => Ok(()),
        Err(PeerError::Memory(error)) => Err(error),
        Err(PeerError::Failed) => unreachable!(),
    }
}

/// One step at the end `near`, whose name is `name`.
fn turn(
    alloc: Global,
    near: &mut Peer<Pipe>,
    far: &mut Peer<Pipe>,
    name: u64,
    at: u64,
    act: &Act,
) -> Result<Entry, AllocError>
    requires can { CanAct near.old far.old name act.now }
    requires mark { (pipe_of far.old).mark ≤ length (pipe_of far.old).output }
    requires replies { near.old.replies ≡ [] }
    requires alive { near.old.failed ≡ false }
    ensures { IfOk result (λ entry. Turned near.old far.old name at act.now near.new far.new entry) }
{
    let before = near.link_ref().output().len();
    let count = count_of(far, act);
    transfer(near, far, count)?;
    act_at(alloc, near, name, at, act)?;
    let replies = near.replies();
    let wrote = Binary::from_slice(alloc, &near.link_ref().output()[before..])?;
    Ok(Entry { replies, wrote })
}

/// A fresh end that opens the connection.
fn new_client(alloc: Global) -> Result<Peer<Pipe>, AllocError>
    ensures { IfOk result (λ p. p ≡ fresh empty_pipe (kind_of Client)) }
{
    match Peer::client(alloc, Pipe::new(alloc)) {
        Ok(peer) => Ok(peer),
        Err((error, _)) => Err(error),
    }
}

/// A fresh end that accepts the connection.
fn new_listener(alloc: Global) -> Result<Peer<Pipe>, AllocError>
    ensures { IfOk result (λ p. p ≡ fresh empty_pipe (kind_of Listener)) }
{
    match Peer::listener(alloc, Pipe::new(alloc)) {
        Ok(peer) => Ok(peer),
        Err((error, _)) => Err(error),
    }
}

/// Both ends before any step; the one error is want of memory.
pub fn new_both(alloc: Global) -> Result<Both, AllocError>
    ensures related { IfOk result (λ b. Related b) }
    ensures start { IfOk result (λ b. view_of b false ≡ start) }
{
    let client = new_client(alloc)?;
    let listener = new_listener(alloc)?;
    Ok(Both {
        client,
        listener,
        steps: StepList::new(alloc),
        trace: Trace {
            entries: EntryList::new(alloc),
        },
        moment: 0,
    })
}

/// Whether an act may be made at the end `near`.
fn can_act(near: &Peer<Pipe>, far: &Peer<Pipe>, name: u64, act: &Act) -> bool
    ensures { IsTrue result ↔ CanAct near.now far.now name act.now }
{
    match act {
        Act::Take(count) => *count <= far.link_ref().untaken().len() as u64,
        Act::TakeAll => true,
        Act::Call(call) => near.may_call(name, call),
    }
}

/// Whether a step is valid after those made.
pub fn is_valid(both: &Both, step: &Step) -> bool
    requires { Related both.now }
    ensures { IsTrue result ↔ IsValid (past_in both.now) step.now }
{
    if step.at < both.moment {
        return false;
    }
    let name = both.steps.len() as u64;
    match step.end {
        End::Client => can_act(&both.client, &both.listener, name, &step.act),
        End::Listener => can_act(&both.listener, &both.client, name, &step.act),
    }
}

/// Adds a step and its entry to those made.
fn keep(both: &mut Both, step: Step, entry: Entry) -> Result<(), AllocError>
    ensures client { both.new.client ≡ both.old.client }
    ensures listener { both.new.listener ≡ both.old.listener }
    ensures steps { OnOk result (both.new.steps ≡ both.old.steps ++ step ∷ []) }
    ensures entries { OnOk result (both.new.trace.entries ≡ both.old.trace.entries ++ entry ∷ []) }
    ensures moment { both.new.moment ≡ step.at }
{
    both.moment = step.at;
    both.steps.push(step)?;
    both.trace.entries.push(entry)?;
    Ok(())
}

/// Makes a valid step of the client.
fn client_turn(alloc: Global, both: &mut Both, step: Step) -> Result<(), AllocError>
    requires related { Related both.old }
    requires end { step.end ≡ Client }
    requires valid { IsValid (past_in both.old) step }
    ensures related { OnOk result (Related both.new) }
    ensures steps { OnOk result (both.new.steps ≡ both.old.steps ++ step ∷ []) }
    ensures turn { OnOk result (IsTurn (view_of both.old false) step (view_of both.new false)) }
{
    let name = both.steps.len() as u64;
    let entry = turn(
        alloc,
        &mut both.client,
        &mut both.listener,
        name,
        step.at,
        &step.act,
    )?;
    keep(both, step, entry)
}

/// Makes a valid step of the listener.
fn listener_turn(alloc: Global, both: &mut Both, step: Step) -> Result<(), AllocError>
    requires related { Related both.old }
    requires end { step.end ≡ Listener }
    requires valid { IsValid (past_in both.old) step }
    ensures related { OnOk result (Related both.new) }
    ensures steps { OnOk result (both.new.steps ≡ both.old.steps ++ step ∷ []) }
    ensures turn { OnOk result (IsTurn (view_of both.old false) step (view_of both.new false)) }
{
    let name = both.steps.len() as u64;
    let entry = turn(
        alloc,
        &mut both.listener,
        &mut both.client,
        name,
        step.at,
        &step.act,
    )?;
    keep(both, step, entry)
}

/// Makes a step that is valid after those made; the one error is want of memory, after which
/// the ends are of no more use.
pub fn advance(alloc: Global, both: &mut Both, step: &Step) -> Result<(), AllocError>
    requires related { Related both.old }
    requires valid { IsValid (past_in both.old) step.now }
    ensures related { OnOk result (Related both.new) }
    ensures steps { OnOk result (both.new.steps ≡ both.old.steps ++ step.now ∷ []) }
    ensures turn { OnOk result (IsTurn (view_of both.old false) step.now (view_of both.new false)) }
{
    let step = step.try_clone(alloc)?;
    match step.end {
        End::Client => client_turn(alloc, both, step),
        End::Listener => listener_turn(alloc, both, step),
    }
}
