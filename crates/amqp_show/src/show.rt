//! A script and its trace, for a reader.
ghost use Rattle.std.specs.Prelude.{◌≡◌, ◌++◌, OnOk, IfOk};
ghost use Rattle.amqp_show.specs.Left.{lines_left};
ghost use Rattle.amqp_show.specs.Voice.{unsaid, cut_text};
ghost use Rattle.amqp_show.specs.Told.{Tells};
ghost use Rattle.amqp_show.specs.Show.{side_in, step_text, StepTells, IsShown};
ghost use Rattle.amqp_show.specs.declared.voice.Side.TheVariants.{Client, Listener};

use crate::hidden::push_hidden;
use crate::lines::{Lines, next_line};
use crate::told::{Told, tell};
use crate::voice::{Side, Voice};
use amqp_shown::bytes::push_word;
use amqp_shown::value::push_number;
use std::alloc::{AllocError, Global};

/// What both ends wrote and have not said.
#[derive(Debug, Drop)]
pub struct Ends {
    /// The client's.
    pub client: Voice,
    /// The listener's.
    pub listener: Voice,
}

/// The end of a line of a script.
pub fn side_of(line: &[u8]) -> Side
    ensures { result ≡ side_in line.now }
{
    match line {
        [b'l', ..] => Side::Listener,
        _ => Side::Client,
    }
}

/// Adds the number of a step and its line.
fn push_step(alloc: Global, out: &mut Vec<u8>, step: u64, line: &[u8]) -> Result<(), AllocError>
    ensures { OnOk result (out.new.items ≡ out.old.items ++ step_text step line.now) }
{
    push_number(alloc, out, step)?;
    push_word(out, " ")?;
    push_hidden(out, line)?;
    push_word(out, "\n")
}

/// What a trace tells of a step, by the end of its line.
fn told_of<'a>(
    alloc: Global,
    step: u64,
    line: &[u8],
    ends: &mut Ends,
    trace: Lines<'a>,
) -> Result<Told<'a>, AllocError>
    ensures { IfOk result (λ t. StepTells (side_in line.now) step (unsaid ends.old.client) (unsaid ends.old.listener) (lines_left trace.entry) t.text.items (unsaid ends.new.client) (unsaid ends.new.listener) (lines_left t.rest)) }
{
    match side_of(line) {
        Side::Client => tell(alloc, step, Side::Client, &mut ends.client, trace),
        Side::Listener => tell(alloc, step, Side::Listener, &mut ends.listener, trace),
    }
}

/// Adds what both ends have not said.
fn push_cuts(alloc: Global, out: &mut Vec<u8>, ends: &Ends) -> Result<(), AllocError>
    ensures { OnOk result (out.new.items ≡ out.old.items ++ cut_text Client (unsaid ends.now.client) ++ cut_text Listener (unsaid ends.now.listener)) }
{
    ends.client.push_cut(alloc, Side::Client, out)?;
    ends.listener.push_cut(alloc, Side::Listener, out)
}

/// For each step its number and its line of the script, in which a password is `***`, the replies of the trace, and a line for each
/// header and frame that ended there, with an arrow for its end. The trace is the text of that of the script's steps. The one error
/// is want of memory.
pub fn shown(alloc: Global, script: &[u8], trace: &[u8]) -> Result<Vec<u8>, AllocError>
    ensures { IfOk result (λ text. IsShown script.now trace.now text.items) }
{
    let mut out = Vec::new(alloc);
    let mut ends = Ends {
        client: Voice::new(alloc),
        listener: Voice::new(alloc),
    };
    let mut step = 0u64;
    let mut lines = script;
    let mut rest = Lines::new(trace);
    'steps: while let Some((line, after)) = next_line(lines) {
        push_step(alloc, &mut out, step, line)?;
        let told = told_of(alloc, step, line, &mut ends, rest)?;
        out.extend_from_slice(told.text.as_slice())?;
        rest = told.rest;
        lines = after;
        step += 1;
    }
    push_cuts(alloc, &mut out, &ends)?;
    Ok(out)
}
