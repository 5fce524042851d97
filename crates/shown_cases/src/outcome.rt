//! What comes of a script and a trace.
use amqp_show::show::shown;
use std::alloc::{AllocError, Global};

/// What is shown of a script and, behind a line `--`, the text of its trace.
pub fn outcome(alloc: Global, given: &str) -> Result<String, AllocError> {
    let Some((script, trace)) = given.split_once("--\n") else {
        return String::from_str(alloc, "no line --");
    };
    let bytes = shown(alloc, script.as_bytes(), trace.as_bytes())?;
    match str::from_utf8(bytes.as_slice()) {
        Ok(text) => String::from_str(alloc, text),
        Err(_) => String::from_str(alloc, "no text"),
    }
}
