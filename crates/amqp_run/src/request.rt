//! `world` and `kdf` over any source and sink.
ghost use Rattle.std.specs.Prelude.{◌≡◌, ◌≤◌, ◌↔◌, ◌⊎◌, ℕ, Some, None};
ghost use Rattle.amqp_wire.specs.Link.{Rose};
ghost use Rattle.amqp_requests.specs.Request.{RunScript, request_in, text_of_key};
ghost use Rattle.amqp_streams.specs.Streams.{ReadsUpTo};
ghost use Rattle.amqp_run.specs.Asked.{IsRunText, IsAskedText, WritesAll, WritesSome, HasBadLine, HasBadStep, IsUnwritten};

use crate::script::steps_of;
use amqp_requests::command::{Command, read_command};
use amqp_requests::key::{KeyRequest, key_line};
use amqp_script::ScriptError;
use amqp_script_runs::{RunError, trace_text};
use amqp_streams::outside::{ReadError, WriteError, read_all, write_all};
use amqp_text::Text;
use amqp_wire::source::{Sink, Source};
use amqp_wire::status::Status;
use std::alloc::Global;

/// The most bytes that a script may have.
pub const LONGEST_SCRIPT: usize = 16_777_216;

/// Reads a script, makes its steps and writes the text of the trace.
fn run_world<S: Source, K: Sink>(alloc: Global, source: &mut S, sink: &mut K) -> Status
    ensures done { result ≡ Status.Done →
        WritesAll (IsRunText (S.left source.old) (S.left source.new))
        (K.written sink.old) (K.written sink.new) }
    ensures usage { result ≡ Status.Usage → ⊥ }
    ensures bad_script { (n : ℕ) → result ≡ Status.BadScript n →
        HasBadLine (S.left source.old) (S.left source.new) n }
    ensures bad_step { (i : ℕ) → result ≡ Status.BadStep i →
        HasBadStep (S.left source.old) (S.left source.new) i }
    ensures memory { result ≡ Status.Memory → (K.written sink.new ≡ K.written sink.old) ⊎
        WritesSome (IsRunText (S.left source.old) (S.left source.new))
        (K.written sink.old) (K.written sink.new) }
    ensures read_fault { result ≡ Status.ReadFault → Rose (S.faults source.old) (S.faults source.new) }
    ensures write_fault { result ≡ Status.WriteFault → Rose (K.faults sink.old) (K.faults sink.new) }
    ensures write_front { result ≡ Status.WriteFault →
        WritesSome (IsRunText (S.left source.old) (S.left source.new))
        (K.written sink.old) (K.written sink.new) }
    ensures too_long { ReadsUpTo 16777216 (S.left source.old) (S.left source.new)
        (result ≡ Status.TooLong) }
    ensures unwritten { IsUnwritten result → K.written sink.new ≡ K.written sink.old }
    ensures source_later { S.faults source.old ≤ S.faults source.new }
    ensures sink_later { K.faults sink.old ≤ K.faults sink.new }
{
    let script = match read_all(alloc, source, LONGEST_SCRIPT) {
        Ok(script) => script,
        Err(ReadError::Memory) => return Status::Memory,
        Err(ReadError::Failed) => return Status::ReadFault,
        Err(ReadError::TooLong) => return Status::TooLong,
    };
    let steps = match steps_of(alloc, script.as_slice()) {
        Ok(steps) => steps,
        Err(ScriptError::Memory(_)) => return Status::Memory,
        Err(ScriptError::Bad { line }) => return Status::BadScript { line },
    };
    let text = match trace_text(alloc, steps.as_slice()) {
        Ok(text) => text,
        Err(RunError::BadStep { index }) => return Status::BadStep { index },
        Err(RunError::Memory(_)) => return Status::Memory,
    };
    match write_all(sink, text.as_slice()) {
        Ok(()) => Status::Done,
        Err(WriteError::Failed) => Status::WriteFault,
        Err(WriteError::Memory) => Status::Memory,
    }
}

/// Derives a key and writes it.
fn run_kdf<K: Sink>(alloc: Global, request: &KeyRequest<'_>, sink: &mut K) -> Status
    ensures done { result ≡ Status.Done →
        WritesAll (λ text. text ≡ text_of_key request.now)
        (K.written sink.old) (K.written sink.new) }
    ensures memory { result ≡ Status.Memory → (K.written sink.new ≡ K.written sink.old) ⊎
        WritesSome (λ text. text ≡ text_of_key request.now)
        (K.written sink.old) (K.written sink.new) }
    ensures write_fault { result ≡ Status.WriteFault → Rose (K.faults sink.old) (K.faults sink.new) }
    ensures write_front { result ≡ Status.WriteFault →
        WritesSome (λ text. text ≡ text_of_key request.now)
        (K.written sink.old) (K.written sink.new) }
    ensures others { IsUnwritten result → ⊥ }
    ensures sink_later { K.faults sink.old ≤ K.faults sink.new }
{
    let line = match key_line(alloc, request) {
        Ok(line) => line,
        Err(_) => return Status::Memory,
    };
    match write_all(sink, line.as_slice()) {
        Ok(()) => Status::Done,
        Err(WriteError::Failed) => Status::WriteFault,
        Err(WriteError::Memory) => Status::Memory,
    }
}

/// Does what the words behind the program's name ask for, where they are `world` or `kdf`.
///
/// `world` reads a script from the source to its end, makes its steps and writes the text of the
/// trace into the sink; `kdf HASH ROUNDS LENGTH PASSWORD SALT` writes a key in hexadecimal and a
/// line feed, and reads nothing. Nothing is written before the run has ended.
///
/// A source that fails or gives more than 16,777,216 bytes ends the run before the script is
/// looked at. Where the source or the sink does not tell its bytes, nothing is said of them.
pub fn run_request<S: Source, K: Sink>(
    alloc: Global,
    words: &[Text],
    source: &mut S,
    sink: &mut K,
) -> Status
    ensures done { result ≡ Status.Done →
        WritesAll (IsAskedText (request_in words.now) (S.left source.old) (S.left source.new))
        (K.written sink.old) (K.written sink.new) }
    ensures usage { result ≡ Status.Usage ↔ (request_in words.now ≡ None) }

    // What only `world` answers, and why.
    ensures bad_script { (n : ℕ) → result ≡ Status.BadScript n →
        (request_in words.now ≡ Some RunScript) × HasBadLine (S.left source.old) (S.left source.new) n }
    ensures bad_step { (i : ℕ) → result ≡ Status.BadStep i →
        (request_in words.now ≡ Some RunScript) × HasBadStep (S.left source.old) (S.left source.new) i }
    ensures read_fault { result ≡ Status.ReadFault →
        (request_in words.now ≡ Some RunScript) × Rose (S.faults source.old) (S.faults source.new) }
    ensures too_long { ReadsUpTo 16777216 (S.left source.old) (S.left source.new)
        (result ≡ Status.TooLong) }

    // A front of the text stands in the sink where it failed; nothing where the run ended before.
    ensures write_fault { result ≡ Status.WriteFault → Rose (K.faults sink.old) (K.faults sink.new) }
    ensures write_front { result ≡ Status.WriteFault →
        WritesSome (IsAskedText (request_in words.now) (S.left source.old) (S.left source.new))
        (K.written sink.old) (K.written sink.new) }
    ensures memory { result ≡ Status.Memory → (K.written sink.new ≡ K.written sink.old) ⊎
        WritesSome (IsAskedText (request_in words.now) (S.left source.old) (S.left source.new))
        (K.written sink.old) (K.written sink.new) }
    ensures unwritten { IsUnwritten result → K.written sink.new ≡ K.written sink.old }

    // Whatever is not `world` reads nothing.
    ensures unread { (request_in words.now ≡ Some RunScript → ⊥) → source.new ≡ source.old }
    ensures source_later { S.faults source.old ≤ S.faults source.new }
    ensures sink_later { K.faults sink.old ≤ K.faults sink.new }
{
    match read_command(words) {
        Some(Command::World) => run_world(alloc, source, sink),
        Some(Command::Kdf(request)) => run_kdf(alloc, &request, sink),
        None => Status::Usage,
    }
}
