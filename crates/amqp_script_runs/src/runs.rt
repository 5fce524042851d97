//! The text of the trace of steps.
ghost use Rattle.std.specs.Prelude.{◌≡◌, ℕ, IfOk, IsErrOf};
ghost use Rattle.amqp_world.specs.Explains.{IsFirstInvalid};
ghost use Rattle.amqp_session_world.specs.Turn.{IsFirstInvalid as IsFirstInvalidWithSessions};
ghost use Rattle.amqp_script_runs.specs.Errors.{error_of};
ghost use Rattle.amqp_script_runs.specs.Runs.{IsExplainedText, IsMadeText, IsTextFor, IsBadFor};
ghost use Rattle.amqp_script_runs.specs.declared.runs.RunError.TheVariants.{Memory};

use amqp_calls::Step;
use amqp_calls::plain::plain_steps;
use amqp_script::text as plain_text_of;
use amqp_session_script::trace_text::text;
use amqp_session_world::SessionWorld;
use amqp_words::Step as PlainStep;
use amqp_world::{World, WorldError};
use std::alloc::{AllocError, Global};

/// Why there is no text.
#[derive(Clone, Copy, Debug, PartialEq, Eq)]
pub enum RunError {
    /// There was not enough memory.
    Memory(AllocError),
    /// The step of this position, from 0, is the first that is not valid.
    BadStep {
        /// The position.
        index: u64,
    },
}

impl From<AllocError> for RunError {
    ghost from_gives = { λ a e. e ≡ Memory a };

    fn from(error: AllocError) -> Self {
        RunError::Memory(error)
    }
}

/// Why two ends made no trace.
fn run_error(error: WorldError) -> RunError
    ensures { result ≡ error_of error }
{
    match error {
        WorldError::BadStep { index } => RunError::BadStep { index },
        WorldError::Memory(error) => RunError::Memory(error),
        WorldError::Failed => RunError::Memory(AllocError),
    }
}

/// The text of the trace of steps of connections.
fn plain_text(alloc: Global, steps: &[PlainStep]) -> Result<Vec<u8>, RunError>
    ensures ok { IfOk result (λ text. IsExplainedText steps.now text.items) }
    ensures bad { (i : ℕ) → IsErrOf result (RunError.BadStep i) → IsFirstInvalid steps.now i }
{
    match World::run(alloc, steps) {
        Ok(trace) => {
            let text = plain_text_of(alloc, &trace)?;
            Ok(text)
        }
        Err(error) => Err(run_error(error)),
    }
}

/// The text of the trace of steps among which are calls for sessions.
fn session_text(alloc: Global, steps: &[Step]) -> Result<Vec<u8>, RunError>
    ensures ok { IfOk result (λ text. IsMadeText steps.now text.items) }
    ensures bad { (i : ℕ) → IsErrOf result (RunError.BadStep i) → IsFirstInvalidWithSessions steps.now i }
{
    match SessionWorld::run(alloc, steps) {
        Ok(trace) => {
            let text = text(alloc, &trace)?;
            Ok(text)
        }
        Err(error) => Err(run_error(error)),
    }
}

/// The text of the trace of steps, or the first step that is not valid. Steps of connections alone are made by the two ends whose
/// promises are proved over both; steps among which is a call for a session, by two ends with sessions.
pub fn trace_text(alloc: Global, steps: &[Step]) -> Result<Vec<u8>, RunError>
    ensures ok { IfOk result (λ text. IsTextFor steps.now text.items) }
    ensures bad { (i : ℕ) → IsErrOf result (RunError.BadStep i) → IsBadFor steps.now i }
{
    match plain_steps(alloc, steps)? {
        Some(plain) => plain_text(alloc, plain.as_slice()),
        None => session_text(alloc, steps),
    }
}
