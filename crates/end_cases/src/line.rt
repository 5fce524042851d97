//! The lines of a case: what is done at the end.
//!
//! | line | at the end |
//! |---|---|
//! | `END MOMENT hears BYTES` | these bytes come, and it goes on |
//! | `END MOMENT polls` | it goes on |
//! | another line of a script (`amqp_session_script::script`) | its call is made |
use crate::error::CaseError;
use amqp_calls::{Act, Call};
use amqp_script::script::number::number;
use amqp_session_script::script::parse;
use case_files::read_bytes;
use std::alloc::Global;

/// What is done at the end.
#[derive(Debug, Drop)]
pub struct Line {
    /// The moment, in milliseconds.
    pub at: u64,
    /// The bytes that come.
    pub heard: Vec<u8>,
    /// The call that is made, if one is.
    pub call: Option<Call>,
}

/// The moment of a line, behind the name of its end.
fn moment(front: &str) -> Result<u64, CaseError> {
    let Some((_, at)) = front.split_once(' ') else {
        return Err(CaseError::Malformed);
    };
    match number(u64::MAX, at.as_bytes()) {
        Some(at) => Ok(at),
        None => Err(CaseError::Malformed),
    }
}

/// The call of a line of a script, and its moment.
fn read_call(alloc: Global, text: &str) -> Result<Line, CaseError> {
    let script = format!(in alloc; "{text}\n")?;
    let Ok(steps) = parse(alloc, script.as_bytes()) else {
        return Err(CaseError::Malformed);
    };
    let [step] = steps.as_slice() else {
        return Err(CaseError::Malformed);
    };
    let Act::Call(call) = &step.act else {
        return Err(CaseError::Malformed);
    };
    let call = call.try_clone(alloc)?;
    Ok(Line {
        at: step.at,
        heard: Vec::new(alloc),
        call: Some(call),
    })
}

/// Reads a line.
pub fn read_line(alloc: Global, text: &str) -> Result<Line, CaseError> {
    let (front, bytes) = match text.split_once(" hears ") {
        Some(parts) => parts,
        None => match text.strip_suffix(" polls") {
            Some(front) => (front, ""),
            None => return read_call(alloc, text),
        },
    };
    let at = moment(front)?;
    let heard = read_bytes(alloc, bytes)?;
    Ok(Line {
        at,
        heard,
        call: None,
    })
}
