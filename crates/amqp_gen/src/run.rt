//! A run of messages that are made by a rule.
ghost use Rattle.std.specs.Prelude.{◌≡◌, ◌≤◌, ℕ, IfOk, IsErrOf};
ghost use Rattle.amqp_session_world.specs.Turn.{IsFirstInvalid};
ghost use Rattle.amqp_gen.specs.Run.{steps_of, IsGenRun};
ghost use Rattle.amqp_gen.specs.Steps.{bytes_of};
ghost use Rattle.amqp_gen.specs.Tally.{tallied};

use crate::steps::push_messages;
use crate::tally::Tally;
use crate::walk::walk;
use amqp_calls::{Step, Trace};
use amqp_session_world::SessionWorld;
use amqp_world::WorldError;
use std::alloc::{AllocError, Global};

/// The most messages of a run.
pub const LONGEST_RUN: u32 = 10_000;

/// What came of a run.
#[derive(Debug)]
pub struct GenRun {
    /// The entries of its steps.
    pub trace: Trace,
    /// What is counted of them.
    pub tally: Tally,
    /// How many bytes the bodies of the messages have together.
    pub bytes: u64,
}

// A run is let go by a call, so that no caller sees its trace.
impl Drop for GenRun {
    fn drop(self) {
        let GenRun {
            trace,
            tally: _,
            bytes: _,
        } = self;
        drop(trace);
    }
}

/// The steps of a run, and how many bytes its bodies have.
fn steps_of(alloc: Global, start: u64, count: u32) -> Result<(Vec<Step>, u64), AllocError>
    requires { count ≤ 10000 }
    ensures { IfOk result (λ r. (r.0.items ≡ steps_of start count) × (r.1 ≡ bytes_of start count)) }
{
    let mut steps = walk(alloc)?;
    let bytes = push_messages(alloc, &mut steps, start, count)?;
    Ok((steps, bytes))
}

fn counted(trace: Trace, bytes: u64) -> GenRun
    ensures { result ≡ record { trace = trace; tally = tallied trace.entries.items; bytes = bytes } }
{
    let tally = Tally::of(trace.entries.as_slice());
    GenRun {
        trace,
        tally,
        bytes,
    }
}

/// Two ends in memory come to a link, and that many messages go over it one at a time: each is sent, received and accepted, and its
/// outcome is asked, before the next. The lengths of the bodies are made from `start` by a rule.
pub fn run_gen(alloc: Global, start: u64, count: u32) -> Result<GenRun, WorldError>
    requires { count ≤ 10000 }
    ensures made { IfOk result (λ run. IsGenRun start count run) }
    ensures bad { (i : ℕ) → IsErrOf result (WorldError.BadStep i) → IsFirstInvalid (steps_of start count) i }
{
    let (steps, bytes) = steps_of(alloc, start, count)?;
    match SessionWorld::run(alloc, steps.as_slice()) {
        Ok(trace) => Ok(counted(trace, bytes)),
        Err(error) => Err(error),
    }
}
