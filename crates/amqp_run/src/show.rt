//! What the two ends of a script said, over any source and sink.
ghost use Rattle.std.specs.Prelude.{◌≡◌, ◌≤◌, ◌⊎◌, ℕ, IfOk};
ghost use Rattle.amqp_wire.specs.Link.{Rose};
ghost use Rattle.amqp_streams.specs.Streams.{ReadsUpTo};
ghost use Rattle.amqp_run.specs.Asked.{WritesAll, WritesSome, HasBadLine, HasBadStep, IsUnwritten};
ghost use Rattle.amqp_run.specs.Show.{form_in, IsFormed, IsShownText};

use crate::request::LONGEST_SCRIPT;
use crate::script::steps_of;
use amqp_script::ScriptError;
use amqp_script::script::words::is_text;
use amqp_script_runs::{RunError, trace_text};
use amqp_show::picture::svg;
use amqp_show::show::shown;
use amqp_streams::outside::{ReadError, WriteError, read_all, write_all};
use amqp_text::Text;
use amqp_wire::source::{Sink, Source};
use amqp_wire::status::Status;
use std::alloc::{AllocError, Global};

/// How what the ends said is written.
#[derive(Clone, Copy, Debug, PartialEq, Eq)]
pub enum Form {
    /// As lines of text.
    Lines,
    /// As a picture, in Scalable Vector Graphics.
    Picture,
}

/// The form that the words behind the program's name ask for: `show` or `show --svg`.
pub fn form_of(words: &[Text]) -> Option<Form>
    ensures { result ≡ form_in words.now }
{
    if let [word] = words {
        if is_text(word.as_bytes(), b"show") {
            return Some(Form::Lines);
        }
        return None;
    }
    let [word, option] = words else {
        return None;
    };
    if is_text(word.as_bytes(), b"show") && is_text(option.as_bytes(), b"--svg") {
        return Some(Form::Picture);
    }
    None
}

/// What is shown of a script and of the text of its trace; the one error is want of memory.
fn formed(alloc: Global, form: Form, script: &[u8], trace: &[u8]) -> Result<Vec<u8>, AllocError>
    ensures { IfOk result (λ text. IsFormed form script.now trace.now text.items) }
{
    match form {
        Form::Lines => shown(alloc, script, trace),
        Form::Picture => svg(alloc, script, trace),
    }
}

/// Reads a script, makes its steps, and writes what its ends said: each step with its replies and what ended there of both ends'
/// protocol headers and frames. Nothing is written before the run has ended.
pub fn run_show<S: Source, K: Sink>(
    alloc: Global,
    form: Form,
    source: &mut S,
    sink: &mut K,
) -> Status
    ensures done { result ≡ Status.Done →
        WritesAll (IsShownText form (S.left source.old) (S.left source.new))
        (K.written sink.old) (K.written sink.new) }
    ensures usage { result ≡ Status.Usage → ⊥ }
    ensures bad_script { (n : ℕ) → result ≡ Status.BadScript n →
        HasBadLine (S.left source.old) (S.left source.new) n }
    ensures bad_step { (i : ℕ) → result ≡ Status.BadStep i →
        HasBadStep (S.left source.old) (S.left source.new) i }
    ensures memory { result ≡ Status.Memory → (K.written sink.new ≡ K.written sink.old) ⊎
        WritesSome (IsShownText form (S.left source.old) (S.left source.new))
        (K.written sink.old) (K.written sink.new) }
    ensures read_fault { result ≡ Status.ReadFault → Rose (S.faults source.old) (S.faults source.new) }
    ensures write_fault { result ≡ Status.WriteFault → Rose (K.faults sink.old) (K.faults sink.new) }
    ensures write_front { result ≡ Status.WriteFault →
        WritesSome (IsShownText form (S.left source.old) (S.left source.new))
        (K.written sink.old) (K.written sink.new) }
    ensures too_long { ReadsUpTo 16777216 (S.left source.old) (S.left source.new)
        (result ≡ Status.TooLong) }
    ensures unwritten { IsUnwritten result → K.written sink.new ≡ K.written sink.old }
    ensures source_later { S.faults source.old ≤ S.faults source.new }
    ensures sink_later { K.faults sink.old ≤ K.faults sink.new }
{
    let script = match read_all(alloc, source, LONGEST_SCRIPT) {
        Ok(script) => script,
        Err(ReadError::Memory) => return Status::Memory,
        Err(ReadError::Failed) => return Status::ReadFault,
        Err(ReadError::TooLong) => return Status::TooLong,
    };
    let steps = match steps_of(alloc, script.as_slice()) {
        Ok(steps) => steps,
        Err(ScriptError::Memory(_)) => return Status::Memory,
        Err(ScriptError::Bad { line }) => return Status::BadScript { line },
    };
    let trace = match trace_text(alloc, steps.as_slice()) {
        Ok(trace) => trace,
        Err(RunError::BadStep { index }) => return Status::BadStep { index },
        Err(RunError::Memory(_)) => return Status::Memory,
    };
    let Ok(text) = formed(alloc, form, script.as_slice(), trace.as_slice()) else {
        return Status::Memory;
    };
    match write_all(sink, text.as_slice()) {
        Ok(()) => Status::Done,
        Err(WriteError::Failed) => Status::WriteFault,
        Err(WriteError::Memory) => Status::Memory,
    }
}
