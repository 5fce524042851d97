//! Two ends with sessions and links in memory.
ghost use Rattle.std.specs.Prelude.{◌≡◌, ◌↔◌, ◌++◌, ◌∷◌, [], ℕ, length, OnOk, IfOk, IsTrue, IsErrOf};
ghost use Rattle.amqp_words.specs.declared.step.End.TheVariants.{Client, Listener};
ghost use Rattle.amqp_session_world.specs.Carried.{AreCarried};
ghost use Rattle.amqp_session_world.specs.Paired.{paired_by};
ghost use Rattle.amqp_session_world.specs.Turn.{IsFresh, IsStart, IsValid, IsTurn, Turns, AreMade, IsFirstInvalid};
ghost use Rattle.amqp_session_world.specs.Worlds.{view_of};

use crate::pairs::SessionPairs;
use crate::turns::{can_act, turn};
use amqp_end::End;
use amqp_end::amqp_calls::{Entry, Step, Trace};
use amqp_wire::pipe::Pipe;
use amqp_words::End as Side;
use amqp_world::WorldError;
use std::alloc::{AllocError, Global};

/// Two ends in memory that share only the bytes moved between them, and the entries of the steps made.
pub struct SessionWorld {
    client: End<Pipe>,
    listener: End<Pipe>,
    /// Which of their sessions pair.
    pairs: SessionPairs,
    /// The moment of the last step.
    moment: u64,
    trace: Trace,
    alloc: Global,
}

// The ends are let go by a call, so that no caller sees what they hold.
impl Drop for SessionWorld {
    fn drop(self) {
        let SessionWorld {
            client,
            listener,
            pairs,
            moment: _,
            trace,
            alloc: _,
        } = self;
        drop(client);
        drop(listener);
        drop(pairs);
        drop(trace);
    }
}

/// A fresh end that opens the connection.
fn new_client(alloc: Global) -> Result<End<Pipe>, AllocError>
    ensures { IfOk result (λ e. IsFresh Client e) }
{
    match End::client(alloc, Pipe::new(alloc)) {
        Ok(end) => Ok(end),
        Err((error, _)) => Err(error),
    }
}

/// A fresh end that accepts the connection.
fn new_listener(alloc: Global) -> Result<End<Pipe>, AllocError>
    ensures { IfOk result (λ e. IsFresh Listener e) }
{
    match End::listener(alloc, Pipe::new(alloc)) {
        Ok(end) => Ok(end),
        Err((error, _)) => Err(error),
    }
}

/// Lets a world go.
fn discard(_world: SessionWorld) {}

/// Lets an end go.
fn discard_end(_end: End<Pipe>) {}

impl SessionWorld {
    /// Two ends to which nothing happened; the one error is want of memory.
    pub fn new(alloc: Global) -> Result<Self, AllocError>
        ensures { IfOk result (λ w. IsStart (view_of w)) }
    {
        let client = new_client(alloc)?;
        let listener = new_listener(alloc)?;
        Ok(SessionWorld {
            client,
            listener,
            pairs: SessionPairs::new(alloc),
            moment: 0,
            trace: Trace {
                entries: Vec::new(alloc),
            },
            alloc,
        })
    }

    /// The entries of the steps made.
    pub fn trace(&self) -> &Trace
        ensures { result.now ≡ self.now.trace }
    {
        &self.trace
    }

    /// Makes a step: bytes move to its end, then that end makes one call or one poll. After `BadStep` the world is as before; after
    /// want of memory it is of no more use.
    pub fn step(&mut self, step: &Step) -> Result<(), WorldError>
        ensures turn { OnOk result (IsTurn (view_of self.old) step.now (view_of self.new)) }
        ensures bad { (i : ℕ) → IsErrOf result (WorldError.BadStep i) → (i ≡ length self.old.trace.entries.items) × (IsValid (view_of self.old) step.now → ⊥) × (view_of self.new ≡ view_of self.old) }
        ensures failed { IsErrOf result WorldError.Failed → ⊥ }
    {
        if !self.is_valid(step) {
            return Err(WorldError::BadStep { index: self.made() });
        }
        self.turn(step)?;
        Ok(())
    }

    /// How many steps were made.
    fn made(&self) -> u64
        ensures { result ≡ length self.now.trace.entries.items }
    {
        self.trace.entries.len() as u64
    }

    /// Whether a step may be made after those made.
    fn is_valid(&self, step: &Step) -> bool
        ensures { IsTrue result ↔ IsValid (view_of self.now) step.now }
    {
        if step.at < self.moment {
            return false;
        }
        let name = self.made();
        match step.end {
            Side::Client => {
                can_act(&self.client, &self.listener, name, &step.act)
                    && self.pairs.spares(&self.listener, &step.act)
            }
            Side::Listener => can_act(&self.listener, &self.client, name, &step.act),
        }
    }

    fn turn(&mut self, step: &Step) -> Result<(), AllocError>
        requires { IsValid (view_of self.old) step.now }
        ensures { OnOk result (IsTurn (view_of self.old) step.now (view_of self.new)) }
    {
        match step.end {
            Side::Client => self.client_turn(step),
            Side::Listener => self.listener_turn(step),
        }
    }

    fn client_turn(&mut self, step: &Step) -> Result<(), AllocError>
        requires end { step.now.end ≡ Client }
        requires valid { IsValid (view_of self.old) step.now }
        ensures { OnOk result (IsTurn (view_of self.old) step.now (view_of self.new)) }
    {
        let name = self.made();
        let near = &mut self.client;
        let entry = turn(
            self.alloc,
            near,
            &mut self.listener,
            name,
            step.at,
            &step.act,
        )?;
        self.keep(Side::Client, step.at, entry)
    }

    fn listener_turn(&mut self, step: &Step) -> Result<(), AllocError>
        requires end { step.now.end ≡ Listener }
        requires valid { IsValid (view_of self.old) step.now }
        ensures { OnOk result (IsTurn (view_of self.old) step.now (view_of self.new)) }
    {
        let name = self.made();
        let near = &mut self.listener;
        let entry = turn(self.alloc, near, &mut self.client, name, step.at, &step.act)?;
        self.keep(Side::Listener, step.at, entry)
    }

    /// Adds the entry of a step of that end to those made.
    fn keep(&mut self, side: Side, at: u64, entry: Entry) -> Result<(), AllocError>
        ensures { OnOk result (view_of self.new ≡ record (view_of self.old) { entries = (view_of self.old).entries ++ entry ∷ []; moment = at; paired = paired_by side entry.replies.items (view_of self.old).paired }) }
    {
        self.pairs.note(side, &entry.replies)?;
        self.moment = at;
        self.trace.entries.push(entry)?;
        Ok(())
    }

    /// Makes steps from the start: their entries, or a step that is not valid.
    pub fn run(alloc: Global, steps: &[Step]) -> Result<Trace, WorldError>
        ensures form { IfOk result (λ trace. length trace.entries.items ≡ length steps.now) }
        ensures made { IfOk result (λ trace. AreMade steps.now trace.entries.items) }
        ensures carried { IfOk result (λ trace. AreCarried steps.now trace.entries.items) }
        ensures bad { (i : ℕ) → IsErrOf result (WorldError.BadStep i) → IsFirstInvalid steps.now i }
        ensures failed { IsErrOf result WorldError.Failed → ⊥ }
    {
        let mut world = SessionWorld::new(alloc)?;
        match world.make_all(steps) {
            Ok(()) => Ok(world.into_trace()),
            Err(error) => {
                discard(world);
                Err(error)
            }
        }
    }

    /// Makes steps from the start, up to the first that is not valid.
    fn make_all(&mut self, steps: &[Step]) -> Result<(), WorldError>
        requires { IsStart (view_of self.old) }
        ensures form { OnOk result (length self.new.trace.entries.items ≡ length steps.now) }
        ensures turns { OnOk result (Turns (view_of self.old) steps.now (view_of self.new)) }
        ensures bad { (i : ℕ) → IsErrOf result (WorldError.BadStep i) → IsFirstInvalid steps.now i }
        ensures failed { IsErrOf result WorldError.Failed → ⊥ }
    {
        for step in steps {
            match self.step(step) {
                Ok(()) => {}
                Err(error) => return Err(error),
            }
        }
        Ok(())
    }

    /// The entries of the steps made, without the ends.
    pub fn into_trace(self) -> Trace
        ensures { result ≡ self.trace }
    {
        let SessionWorld {
            client,
            listener,
            pairs,
            moment: _,
            trace,
            alloc: _,
        } = self;
        discard_end(client);
        discard_end(listener);
        drop(pairs);
        trace
    }
}
