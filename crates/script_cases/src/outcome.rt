//! What comes of a script.
use amqp_script::ScriptError;
use amqp_script_runs::{RunError, trace_text};
use amqp_session_script::script::parse;
use amqp_wire::status::Status;
use std::alloc::Global;

/// The text of the trace of a script, or the status of its run.
pub fn outcome(alloc: Global, script: &[u8]) -> Result<Vec<u8>, Status> {
    let steps = match parse(alloc, script) {
        Ok(steps) => steps,
        Err(ScriptError::Memory(_)) => return Err(Status::Memory),
        Err(ScriptError::Bad { line }) => return Err(Status::BadScript { line }),
    };
    match trace_text(alloc, steps.as_slice()) {
        Ok(text) => Ok(text),
        Err(RunError::BadStep { index }) => Err(Status::BadStep { index }),
        Err(RunError::Memory(_)) => Err(Status::Memory),
    }
}
