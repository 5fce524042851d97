//! The script of connections, sessions and links: that of connections, for links the words of the crate `amqp_link_script`, and for
//! sessions the words
//!
//! | word and arguments | the step |
//! |---|---|
//! | `begin window=N outwindow=N next=N handles=N` | the client begins a session |
//! | `accept_session window=N outwindow=N next=N handles=N` | the listener accepts the first session that waits, or the next |
//! | `end NAME error=T` | the end ends the session that the step NAME, from 0, made |
//!
//! Numbers are below 2^32, NAME is one below 2^64. `window` and `outwindow` (transfers) are 2,048 where they are left out, `next` is 0 and
//! `handles`, the highest handle, 255. The bytes of `error` are ASCII.
ghost use Rattle.std.specs.Prelude.{◌≡◌, ◌++◌, ◌∷◌, [], ℕ, IfOk, OnOk, IsErrOf};
ghost use Rattle.amqp_session_script.specs.Script.{Spells, IsFirstBad};

use crate::line::read_step;
use amqp_calls::Step;
use amqp_script::ScriptError;
use amqp_script::script::line_error::LineError;
use amqp_script::script::words::split_once;
use std::alloc::{AllocError, Global};

/// Adds a step at the end.
fn push_step(steps: &mut Vec<Step>, step: Step) -> Result<(), AllocError>
    ensures { OnOk result (steps.new.items ≡ steps.old.items ++ step ∷ []) }
{
    steps.push(step)?;
    Ok(())
}

/// The steps of a script, or its first line outside the grammar.
pub fn parse(alloc: Global, text: &[u8]) -> Result<Vec<Step>, ScriptError>
    ensures ok { IfOk result (λ steps. Spells text.now steps.items) }
    ensures bad { (n : ℕ) → IsErrOf result (ScriptError.Bad n) → IsFirstBad text.now n }
{
    let mut steps = Vec::new(alloc);
    let mut rest = text;
    'lines: while !rest.is_empty() {
        let number = steps.len() as u64 + 1;
        let Some((line, after)) = split_once(rest, b'\n') else {
            return Err(ScriptError::Bad { line: number });
        };
        match read_step(alloc, line) {
            Ok(step) => push_step(&mut steps, step)?,
            Err(LineError::Outside) => return Err(ScriptError::Bad { line: number }),
            Err(LineError::Memory(error)) => return Err(ScriptError::Memory(error)),
        }
        rest = after;
    }
    Ok(steps)
}
