//! Two ends in memory.
ghost use Rattle.std.specs.Prelude.{◌≡◌, ◌↔◌, List, ℕ, [], ◌∷◌, ◌++◌, length, true, false, Err, IfOk, OnOk, IsErrOf, alloc_error};
ghost use Rattle.amqp_world.specs.declared.world.WorldError.TheVariants.{Memory};
ghost use Rattle.amqp_world.specs.Valid.{IsValid};
ghost use Rattle.amqp_world.specs.Explains.{past_of, Explained, Turns, AreMade, IsFirstInvalid};
ghost use Rattle.amqp_world.specs.Turn.{IsTurn, start};
ghost use Rattle.amqp_world.specs.Related.{Related, view_of};

use crate::both::{Both, advance, is_valid, new_both};
use amqp_words::{Step, Trace};
use std::alloc::{AllocError, Global};
use std::marker::Model;
use thiserror::Error;

/// Why a step is not made.
#[derive(Clone, Copy, Debug, PartialEq, Eq, Error)]
pub enum WorldError {
    /// There was not enough memory. The world can go no further.
    #[error("Memory")]
    Memory(AllocError),
    /// The step of this position, from 0, is not valid. The world is as before.
    #[error("BadStep")]
    BadStep {
        /// The position.
        index: u64,
    },
    /// Memory was wanting at an earlier step.
    #[error("Failed")]
    Failed,
}

impl From<AllocError> for WorldError {
    ghost from_gives = { λ a e. e ≡ Memory a };

    fn from(error: AllocError) -> Self {
        WorldError::Memory(error)
    }
}

/// Two ends in memory that share only the bytes moved between them, seen as the steps made,
/// their entries and the ends.
///
/// Unless memory was wanting, both ends are where the steps leave them, and the entries explain
/// the steps.
#[derive(Drop)]
pub struct World {
    both: Both,
    failed: bool,
    alloc: Global,
}

impl Model for World {
    ghost use Rattle.std.specs.Prelude.{◌≡◌, false};
    ghost use Rattle.amqp_world.specs.WorldView.{WorldView, view_code};
    ghost use Rattle.amqp_world.specs.Related.{Related, view_of};

    ghost Value = { WorldView };

    ghost coded = { view_code };

    ghost view = { λ w. view_of w.both w.failed };

    ghost invariant = { λ w. w.failed ≡ false → Related w.both };
}

// Lets a value go. The drop of two ends has as many places as they have parts; here it is one.
fn discard<T: Drop>(_value: T) {}

impl World {
    /// Two ends to which nothing happened; the one error is want of memory.
    pub fn new(alloc: Global) -> Result<World, AllocError>
        ensures { IfOk result (λ w. w ≡ start) }
    {
        let both = new_both(alloc)?;
        Ok(World {
            both,
            failed: false,
            alloc,
        })
    }

    /// Makes a step: bytes move to its end, then that end makes one call or one poll. After
    /// `BadStep` the world is as before, and want of memory is final.
    pub fn step(&mut self, step: &Step) -> Result<(), WorldError>
        ensures valid { OnOk result (IsValid (past_of self.old.steps self.old.entries) step.now) }
        ensures steps { OnOk result (self.new.steps ≡ self.old.steps ++ step.now ∷ []) }
        ensures turn { OnOk result (IsTurn self.old step.now self.new) }
        ensures explained { OnOk result (Explained (past_of self.new.steps self.new.entries)) }
        ensures alive { OnOk result (self.new.failed ≡ false) }
        ensures bad { (i : ℕ) → IsErrOf result (WorldError.BadStep i) → (i ≡ length self.old.steps) × (IsValid (past_of self.old.steps self.old.entries) step.now → ⊥) × (self.new ≡ self.old) }
        ensures memory { IsErrOf result (WorldError.Memory alloc_error) → self.new.failed ≡ true }
        ensures failed { IsErrOf result WorldError.Failed ↔ (self.old.failed ≡ true) }
        ensures kept { IsErrOf result WorldError.Failed → self.new ≡ self.old }
    {
        if self.failed {
            return Err(WorldError::Failed);
        }
        if !is_valid(&self.both, step) {
            return Err(WorldError::BadStep {
                index: self.both.steps.len() as u64,
            });
        }
        self.failed = true;
        advance(self.alloc, &mut self.both, step)?;
        self.failed = false;
        Ok(())
    }

    /// The entries of the steps made.
    pub fn trace(&self) -> &Trace
        ensures { result.now.entries ≡ self.now.entries }
    {
        &self.both.trace
    }

    /// The entries of the steps made, without the ends.
    pub fn into_trace(self) -> Trace
        ensures { result.entries ≡ self.entries }
    {
        let Both {
            client,
            listener,
            steps,
            trace,
            ..
        } = self.both;
        discard(client);
        discard(listener);
        discard(steps);
        trace
    }

    /// Makes steps from the start: a trace that explains them, or the first that is not valid.
    pub fn run(alloc: Global, steps: &[Step]) -> Result<Trace, WorldError>
        ensures form { IfOk result (λ trace. length trace.entries ≡ length steps.now) }
        ensures explained { IfOk result (λ trace. Explained (past_of steps.now trace.entries)) }
        ensures made { IfOk result (λ trace. AreMade steps.now trace.entries) }
        ensures bad { (i : ℕ) → IsErrOf result (WorldError.BadStep i) → IsFirstInvalid steps.now i }
        ensures failed { IsErrOf result WorldError.Failed → ⊥ }
    {
        let mut world = World::new(alloc)?;
        match world.make_all(steps) {
            Ok(()) => Ok(world.into_trace()),
            Err(error) => {
                discard(world);
                Err(error)
            }
        }
    }

    /// Makes steps from the start, up to the first that is not valid.
    fn make_all(&mut self, steps: &[Step]) -> Result<(), WorldError>
        requires { self.old ≡ start }
        ensures form { OnOk result (length self.new.entries ≡ length steps.now) }
        ensures explained { OnOk result (Explained (past_of steps.now self.new.entries)) }
        ensures turns { OnOk result (Turns start steps.now self.new) }
        ensures bad { (i : ℕ) → IsErrOf result (WorldError.BadStep i) → IsFirstInvalid steps.now i }
        ensures failed { IsErrOf result WorldError.Failed → ⊥ }
    {
        for step in steps {
            self.step(step)?;
        }
        Ok(())
    }
}
